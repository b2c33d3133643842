// The pixels of 01, "Pixels to prove", four of grey layers, and a band: theorems over the definitions, apart from them since each edit of a definition rechecks its crate.
#![tactic(auto)]
