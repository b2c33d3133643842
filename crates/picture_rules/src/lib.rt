// A line of the picture: what the call of a line answers. Its definitions stand in specs/, the theorems about them in proofs/.
#![tactic(auto)]
