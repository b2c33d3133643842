// Whether an image layer's data agrees with its record: the walk of the record's own octets, and of no other, ends at their end with the record's
// width, height, resolution and count of components.
#![tactic(auto)]

ghost use Rattle.std.specs.Prelude.{◌≡◌, cond, ◌+◌, ◌≤◌, eqb, length};
ghost use Rattle.write_rules.specs.Layer.{ends_as, agrees};

use jpeg_rules::{Fault, Said};
use sheet_rules::Record;

// 02, 2026-07: what octet 17 tells of the layer's data.
fn components_of(octet17: u8) -> u32
    ensures { result ≡ cond (eqb octet17 1) 1 3 }
{
    if octet17 == 1 { 1 } else { 3 }
}

fn ends_as(w: Result<(usize, Said), Fault>, r: Record) -> bool
    ensures { result ≡ ends_as w r }
{
    let Ok((next, said)) = w else {
        return false;
    };
    (next == r.len as usize)
        & (said.width == r.width)
        & (said.height == r.height)
        & (said.res == r.res)
        & (said.components == components_of(r.octet17))
}

pub fn data_agrees(d: &[u8], main: u16, r: Record) -> bool
    requires { r.start + r.len ≤ length d.now }
    ensures { result ≡ agrees d.now main r }
{
    let from = r.start as usize;
    let to = from + r.len as usize;
    ends_as(jpeg_walk::walk_layer(&d[from..to], 0, main), r)
}
