// The plane list as parallel numbers by value, and that list made from the octets that C lends.
#![tactic(auto)]

ghost use Rattle.std.specs.Prelude.{◌≡◌, ◌*◌, ◌<◌, ◌/◌, min, length};
ghost use Rattle.pixel_rules.specs.Planes.{plane_size, plane_at, plane_start};
ghost use Rattle.line_planes.specs.Listing.{no_planes, with_plane, listing_of, entry_of, entries_of};

use pixel_rules::Plane;

// How many octets an entry from C has: the layer, and four of start.
pub const PLANE_SIZE: usize = 5;

// The first sixteen entries of a plane list, layers and starts in parallel. Layers rise from 1 to at most 15, so that a list of sixteen entries has a
// fault within them, and the rest is not looked at.
#[derive(Clone, Copy)]
pub struct Listing {
    pub count: usize,
    pub layers: [u8; 16],
    pub starts: [u32; 16],
}

pub fn no_planes() -> Listing
    ensures { result ≡ no_planes }
{
    Listing {
        count: 0,
        layers: [0; 16],
        starts: [0; 16],
    }
}

// One entry more, after those that are there.
#[tactic(auto, using(crate::proofs::Laws::plane_kept, crate::proofs::Laws::plane_passed))]
pub fn with_plane(list: Listing, p: Plane) -> Listing
    ensures { result ≡ with_plane list p }
{
    let i = list.count;
    if i < 16 {
        let mut n = list;
        n.count = i + 1;
        n.layers[i] = p.layer;
        n.starts[i] = p.start;
        return n;
    }
    list
}

pub fn plane_at(s: &[u8], i: usize) -> Plane
    requires { i < length s.now / plane_size }
    ensures { result ≡ plane_at s.now i }
{
    let at = i * PLANE_SIZE;
    Plane {
        layer: s[at],
        start: octets_get::be32(s, at + 1),
    }
}

// The whole entries of a list from C.
pub fn listing_of(s: &[u8]) -> Listing
    ensures { result ≡ listing_of s.now }
{
    let n = s.len() / PLANE_SIZE;
    let mut list = no_planes();
    for i in 0..n {
        if list.count == 16 {
            return list;
        }
        list = with_plane(list, plane_at(s, i));
    }
    list
}

// Entry i of a list as parallel numbers.
pub fn entry_at(list: Listing, i: usize) -> Plane
    requires { i < 16 }
    ensures { result ≡ entry_of list i }
{
    Plane {
        layer: list.layers[i],
        start: list.starts[i],
    }
}

pub fn entry_count(list: Listing) -> usize
    ensures { result ≡ min list.count 16 }
{
    list.count.min(16)
}

// Where a layer's samples start, if it was read. A list has few entries, and they are looked through once a line.
pub fn start_of(list: Listing, layer: u8) -> Option<u32>
    ensures { result ≡ plane_start (entries_of list) layer }
{
    for i in 0..entry_count(list) {
        let p = entry_at(list, i);
        if p.layer == layer {
            return Some(p.start);
        }
    }
    None
}
