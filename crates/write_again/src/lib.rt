// A page written from its own sheet and itself comes back; and pages written by example. No code needs these theorems, so that they stand apart from
// `write_rules`, whose edits would prove them each time.
#![tactic(auto)]
