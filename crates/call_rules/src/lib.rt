// What the exported calls promise. The relations stand in specs/, firmness and what a viewer may rely on in proofs/; there is no function here.
#![tactic(auto)]
