// No code: cases of reading, resolving, salvaging and packing, which compute from the definitions. specs/ has the tables.
#![tactic(auto)]
