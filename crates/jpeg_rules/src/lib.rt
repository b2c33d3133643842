// The types of the JPEG walk (01, "Where an image layer ends"). The rules stand in specs/, the theorems about them in proofs/.
#![tactic(auto)]

use std::ops::ControlFlow;

// The first six octets of the body of the APP1 segment that gives a layer's resolution.
pub const G3FAX: [u8; 6] = [0x47, 0x33, 0x46, 0x41, 0x58, 0x00];

// What a marker's code makes of it.
#[derive(Clone, Copy)]
pub enum Class {
    Alone,
    Frame,
    Scan,
    End,
    Wrong,
    Segment,
}

// What stands where a marker is due: its code and the place after it; an octet other than FF; or too few octets.
#[derive(Clone, Copy)]
pub enum Marker {
    Code { code: u8, next: usize },
    Missing,
    Cut,
}

// Why a walk was refused, and the place.
#[derive(Clone, Copy)]
pub enum Fault {
    Short(usize),
    BadLength(usize),
    BadRes(usize),
    BadLayer(usize),
}

// What a JPEG layer says of itself: how many components its frame has, its size and its resolution. The count is no octet and stands first: a struct
// of eight octets is copied as one number that its fields are then cut out of, and one with a gap in it is copied otherwise; pages of many small
// segments were read at half and at two thirds of the speed.
#[derive(Clone, Copy)]
pub struct Said {
    pub components: u32,
    pub width: u16,
    pub height: u16,
    pub res: u16,
}

// What is known where a marker is due, at `at`. A resolution of 0 is none yet.
#[derive(Clone, Copy)]
pub struct Reach {
    pub at: usize,
    pub framed: bool,
    pub scanned: bool,
    pub said: Said,
}

// Where a layer ends, and what it says of itself; or why there is none.
pub type Walk = Result<(usize, Said), Fault>;

// One marker on, or the walk's answer.
pub type Turn = ControlFlow<Walk, Reach>;
