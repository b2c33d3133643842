// What a page comes to. Its grammar, its reading and its refusals stand in specs/, the theorems about them in proofs/.
#![tactic(auto)]

use sheet_rules::RECORD_SIZE;

// The octets of the records of 64 stripes in the sheet, of three layers each.
pub const PAGE_SHEET: usize = 64 * 3 * RECORD_SIZE;
