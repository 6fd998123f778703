// Texts of the published documents: whether each is valid, and what the scanner sees in it.
use std::io;
use text::utf8::IllFormed;
use text::{scanner, utf8};

// Prints the code points that the scanner sees, one after the other. Each says where the next one begins.
fn walk(rt: &impl Print, s: &[u8]) -> io::Result<()> {
    let mut at = 0;
    loop {
        match scanner::peek(s, at) {
            None => {
                return Ok(());
            }
            Some((code, next)) => {
                print!(rt; " {code:04x}")?;
                at = next;
            }
        }
    }
}

fn show(rt: &impl Print, name: &str, s: &[u8]) -> io::Result<()> {
    print!(rt; "{name}")?;
    match utf8::validate(s) {
        Ok(()) => {
            print!(rt; ": valid")?;
        }
        Err(IllFormed { at }) => {
            print!(rt; ": ill-formed at {at}")?;
        }
    }
    print!(rt; ", seen as")?;
    walk(rt, s)?;
    println!(rt)
}

// RFC 3629: the examples of section 7, the surrogates of section 3, the attacks of section 10.
pub fn rfc(rt: &impl Print) -> io::Result<()> {
    show(
        rt,
        "RFC 3629 7, A<NOT IDENTICAL TO><ALPHA>.",
        &[0x41, 0xe2, 0x89, 0xa2, 0xce, 0x91, 0x2e],
    )?;
    show(
        rt,
        "RFC 3629 7, hangugeo",
        &[0xed, 0x95, 0x9c, 0xea, 0xb5, 0xad, 0xec, 0x96, 0xb4],
    )?;
    show(
        rt,
        "RFC 3629 7, nihongo",
        &[0xe6, 0x97, 0xa5, 0xe6, 0x9c, 0xac, 0xe8, 0xaa, 0x9e],
    )?;
    show(
        rt,
        "RFC 3629 7, U+233B4 with a BOM",
        &[0xef, 0xbb, 0xbf, 0xf0, 0xa3, 0x8e, 0xb4],
    )?;
    show(
        rt,
        "RFC 3629 3, surrogates of U+233B4",
        &[0xed, 0xa1, 0x8c, 0xed, 0xbe, 0xb4],
    )?;
    show(rt, "RFC 3629 10, a long NUL", &[0xc0, 0x80])?;
    show(
        rt,
        "RFC 3629 10, a long full stop",
        &[0x2f, 0xc0, 0xae, 0x2e, 0x2f],
    )
}

// The Unicode Standard, section 3.9: the tables of ill-formed sequences, 3-8 to 3-11, and table 3-8 of Unicode 6.0.
pub fn unicode(rt: &impl Print) -> io::Result<()> {
    show(
        rt,
        "Unicode 3-8, not the shortest form",
        &[0xc0, 0xaf, 0xe0, 0x80, 0xbf, 0xf0, 0x81, 0x82, 0x41],
    )?;
    show(
        rt,
        "Unicode 3-9, surrogates",
        &[0xed, 0xa0, 0x80, 0xed, 0xbf, 0xbf, 0xed, 0xaf, 0x41],
    )?;
    show(
        rt,
        "Unicode 3-10, other ill-formed",
        &[0xf4, 0x91, 0x92, 0x93, 0xff, 0x41, 0x80, 0xbf, 0x42],
    )?;
    show(
        rt,
        "Unicode 3-11, truncated",
        &[0xe1, 0x80, 0xe2, 0xf0, 0x91, 0x92, 0xf1, 0xbf, 0x41],
    )?;
    show(
        rt,
        "Unicode 6.0 3-8, conversion",
        &[
            0x61, 0xf1, 0x80, 0x80, 0xe1, 0x80, 0xc2, 0x62, 0x80, 0x63, 0x80, 0xbf, 0x64,
        ],
    )
}
