// A band: all lines of a stripe in one call. Its definitions stand in specs/, the theorems about them in proofs/.
#![tactic(auto)]
