// The types of coded data handed out. The definitions stand in specs/, the theorems about them in proofs/.
#![tactic(auto)]

// What holds a layer's coded data, by the number that the viewer in C is given.
#[derive(Clone, Copy)]
pub enum Source {
    Page = 0,
    Pencil = 1,
}

// Where a part stands: what holds it, its first octet there, and how many octets it has.
#[derive(Clone, Copy)]
pub struct Part {
    pub source: Source,
    pub start: u32,
    pub len: u32,
}
