// Requests for coded data answered by example, one theorem each. They stand apart from `data_rules`, whose edits would compute them each time.
#![tactic(auto)]
