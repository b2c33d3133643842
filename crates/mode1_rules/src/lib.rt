// The types of a Mode 1 stripe (9.3). What it is, how it is read and where it is refused stand in specs/, that these agree in proofs/.
#![tactic(auto)]

use jpeg_rules::Said;
use sheet_rules::Colour;

// The octets of a stripe's body: the fields of 9.3.
pub const STRIPE_BODY: u16 = 31;

// The fields of a stripe in their order, under the names that the definitions use.
#[derive(Clone, Copy)]
pub struct Fields {
    pub kind: u8,
    pub back: Colour,
    pub fore: Colour,
    pub back_x: u32,
    pub back_y: u32,
    pub fore_x: u32,
    pub fore_y: u32,
    pub height: u32,
    pub mask_length: u32,
}

// A layer's coded data: where they stand, how many octets they are, and what they say of themselves.
#[derive(Clone, Copy)]
pub struct LayerData {
    pub start: u32,
    pub size: u32,
    pub said: Said,
}
