// What exported calls leave one after the other: a page written and read, read and written. No code needs these theorems, so that they stand apart
// from `call_rules` and `write_again`, whose edits and examples would wait for them.
#![tactic(auto)]
