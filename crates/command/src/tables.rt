// The two tables that content is read by, lent together.
ghost use Rattle.std.specs.Prelude.{◌≡◌};
ghost use Rattle.compose.specs.Composites.{composites};
ghost use Rattle.compose.specs.Lookup.{numbers};
ghost use Rattle.command.specs.Names.{names as all_names};

// The list of commands (`names::names`) and the table of composed characters (`compose::table`). Whoever reads contents makes each once and lends
// both to all that it calls; what they hold is part of the type.
#[derive(Clone, Copy)]
pub struct Tables<'a> {
    pub names: &'a [u8],
    pub marks: &'a [u32],
    pub ghost all_names: { names.now ≡ all_names },
    pub ghost all_marks: { marks.now ≡ numbers composites },
}
