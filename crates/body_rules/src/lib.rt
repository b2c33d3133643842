// The body of a page, whatever its stripes are: optional segments, 1 to 64 stripes, and the end. It stands in specs/, that it is read exactly in proofs/; there is
// no function here.
#![tactic(auto)]
