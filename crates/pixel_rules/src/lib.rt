// The types of a pixel: places, samples and the plane list. Its definitions stand in specs/, the theorems about them in proofs/.
#![tactic(auto)]

use sheet_rules::Colour;

// A place along a line or down a stripe, in main mask pixels from the stripe's corner.
#[derive(Clone, Copy)]
pub struct MainPos(pub usize);

// A place along or down a layer, in its own samples from the layer's corner. Only the scaling step makes one of a place in main mask pixels.
#[derive(Clone, Copy)]
pub struct SamplePos(pub usize);

// The sample of an image layer at a pixel: known with its colour, or not known.
pub type Sample = Option<Colour>;

// The sample of a mask at a pixel: known to be 0 or 1, or not known.
#[derive(Clone, Copy)]
pub enum Mask {
    Zero,
    One,
    Hidden,
}

// An entry of the plane list: a layer that was read, and where its samples start in the sample buffer.
#[repr(C)]
#[derive(Clone, Copy)]
pub struct Plane {
    pub layer: u8,
    pub start: u32,
}
