// Padded markers (02, 2026-03) beside the walk of `jpeg_rules`: what the walk before them ended, the walk of today ends the same, and octets FF put in
// before a marker change nothing but where the layer ends. No code cites it, so it stands apart from `jpeg_rules`, whose edits would prove it each time.
#![tactic(auto)]
