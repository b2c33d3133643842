// Laws of choices and tests that every crate of definitions uses. They stand in proofs/; there is no function here.
#![tactic(auto)]
