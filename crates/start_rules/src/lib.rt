// What the start of page says (9.2.1). Its grammar, its reading and its refusals stand in specs/, that they agree in proofs/.
#![tactic(auto)]

use segment_rules::Rules;

// The rules in force, the coder octets, the main resolution, the page's width.
#[derive(Clone, Copy)]
pub struct Head {
    pub rules: Rules,
    pub mask: u8,
    pub image: u8,
    pub main: u16,
    pub width: u16,
}
