// The rules in force on a page: the version and the mode that its start names (9.2.1). What is not taken yet is no value of these types, so that a
// version or a mode more asks for its case wherever the rules decide.
#![tactic(auto)]

// By its octet in the start of page.
#[derive(Clone, Copy)]
pub enum Version {
    // version 00
    Base = 0,
}

// By its octet in the start of page.
#[derive(Clone, Copy)]
pub enum Mode {
    // Mode 1
    One = 1,
}

#[derive(Clone, Copy)]
pub struct Rules {
    pub version: Version,
    pub mode: Mode,
}

// The octets of the longest page that is read or written.
pub const LONGEST_PAGE: usize = 16777215;

// The octets that the reader compares and the writer puts: FF D8, FF ED and FF D9.
pub const SOI: [u8; 2] = [0xFF, 0xD8];

pub const APP13: [u8; 2] = [0xFF, 0xED];

pub const EOI: [u8; 2] = [0xFF, 0xD9];
// 4D 52 43 n: what an ident begins with, the start of page, and a stripe.
pub const MRC: [u8; 3] = [0x4D, 0x52, 0x43];

pub const START: [u8; 4] = [0x4D, 0x52, 0x43, 0x00];

pub const STRIPE: [u8; 4] = [0x4D, 0x52, 0x43, 0x01];
