// The types of the sheet and of its judge. The rules stand in specs/, the theorems about them in proofs/Theorems.antt.
#![tactic(auto)]

// How many octets a record has.
pub const RECORD_SIZE: usize = 28;

// The octets of a sheet's first two records; the second has the page's width and main resolution.
pub const TWO_RECORDS: usize = 2 * RECORD_SIZE;

// No good sheet has more records: 64 stripes of 15 layers.
pub const MOST_RECORDS: usize = 960;

// So many octets of a sheet decide its verdict.
pub const DECISIVE_SIZE: usize = (MOST_RECORDS + 1) * RECORD_SIZE;

// Three CIELAB code octets, carried as they stand.
#[derive(Clone, Copy, PartialEq, Eq)]
pub struct Colour {
    pub c0: u8,
    pub c1: u8,
    pub c2: u8,
}

// A record: the paper's table, field by field.
#[derive(Clone, Copy)]
pub struct Record {
    pub stripe: u16,
    pub layer: u8,
    pub coder: u8,
    // from the stripe's corner, in main mask pixels
    pub x: u16,
    pub y: u16,
    // in the layer's own samples
    pub width: u16,
    pub height: u16,
    pub res: u16,
    pub base0: u8,
    pub base1: u8,
    pub base2: u8,
    // 1 in a grey layer: coded image data of one component, lightness; else 0
    pub octet17: u8,
    // of the coded data
    pub start: u32,
    pub len: u32,
    pub octets26: u16,
}

// What of the records passed the next one is judged by.
#[derive(Clone, Copy)]
pub struct State {
    // of the last record; layer 0 before the first
    pub stripe: u16,
    pub layer: u8,
    // of this stripe's layers 1 and 2, as far as they were passed
    pub coded1: bool,
    pub coded2: bool,
    pub res1: u16,
    // of the last layer 2
    pub main: u16,
    pub width: u16,
    // how much of the page's height is left
    pub left: u16,
}

// What a good sheet has: so many records and stripes.
#[derive(Clone, Copy)]
pub struct Counts {
    pub records: usize,
    pub stripes: usize,
}

// An entry of the stripe table: which records and lines a stripe has.
#[derive(Clone, Copy)]
pub struct Extent {
    // its first record and how many it has
    pub first: u32,
    pub layers: u32,
    // its first line in the page and how many lines it has
    pub top: u32,
    pub height: u32,
}
