// How far the walk over a JPEG layer looked, and that its answer is decided so far. Nobody need believe a look: the theorems bound it on both sides. So it
// stands apart from `jpeg_rules`, whose edits would prove it each time.
#![tactic(auto)]
