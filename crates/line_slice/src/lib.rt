// The plane list as a lent slice of structs: gathered by value, which covered code takes, and a lookup in it.
#![tactic(auto)]

ghost use Rattle.std.specs.Prelude.{◌≡◌};
ghost use Rattle.pixel_rules.specs.Planes.{plane_start};
ghost use Rattle.line_planes.specs.Listing.{no_planes, gathered};

use line_planes::Listing;
use pixel_rules::Plane;

// The entries of the list, in their order.
pub fn gather_planes(planes: &[Plane]) -> Listing
    ensures { result ≡ gathered no_planes planes.now }
{
    let mut t = line_planes::no_planes();
    for i in 0..planes.len() {
        t = line_planes::with_plane(t, planes[i]);
    }
    t
}

// Where a layer's samples start, by its first entry.
pub fn plane_start(planes: &[Plane], layer: u8) -> Option<u32>
    ensures { result ≡ plane_start planes.now layer }
{
    for k in 0..planes.len() {
        let p = planes[k];
        if p.layer == layer {
            return Some(p.start);
        }
    }
    None
}
