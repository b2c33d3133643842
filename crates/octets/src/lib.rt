// Octets as numbers and as fixed strings, in both directions. T.44 has every number most significant octet first. The definitions stand in specs/, the
// theorems about them in proofs/.
#![tactic(auto)]
