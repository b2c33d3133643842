// How far reading looked at a page that it refuses, and that the refusal is decided so far, for every part of the page. Nobody need believe a look: the
// theorems bound it on both sides. So the looks stand apart from the rules, whose edits would prove them each time.
#![tactic(auto)]
