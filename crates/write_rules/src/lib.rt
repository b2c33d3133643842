// The types and sizes of writing a page. Its definitions stand in specs/, the theorems about them in proofs/.
#![tactic(auto)]

// The octets of the start of page with its termination, and of both the start and the end.
pub const START_SIZE: usize = 22;

pub const FRAME_SIZE: u64 = START_SIZE as u64 + 4;

// Mode 1: a stripe carries three layers, and its segment takes 39 octets.
pub const MODE1_LAYERS: u8 = 3;

pub const MODE1_HEAD: usize = 39;

// What the records passed make of the page: its coder octets, each the coder used so far or 0, and how many octets it takes so far.
#[derive(Clone, Copy)]
pub struct Tally {
    pub mask: u8,
    pub image: u8,
    pub size: u64,
}
