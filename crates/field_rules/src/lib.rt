// The vocabulary of segments: fields in order, read at a place. It stands in specs/, its laws in proofs/Laws.antt; there is no function here.
#![tactic(auto)]
