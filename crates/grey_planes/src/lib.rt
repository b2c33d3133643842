// A grey plane gives the line that the same plane in colour gives, three octets a sample, on the sheet with octet 17 cleared. No code needs this
// theorem, so that it stands apart from `picture_rules`.
#![tactic(auto)]
