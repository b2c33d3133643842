// The three records of a Mode 1 stripe, from its fields and its layers, and their octets in a sheet.
//
// A stripe's fields are judged before: a layer that is coded has offsets below 65,536, and so is the height. The caller says so (`Room`), and nothing is cut off.
#![tactic(auto)]

ghost use Rattle.std.specs.Prelude.{◌≡◌, cond, None, ◌≤◌};
ghost use Rattle.octets.specs.Octets.{put_at};
ghost use Rattle.sheet_rules.specs.Record.{sheet_of};
ghost use Rattle.jpeg_rules.specs.Said.{grey_octet};
ghost use Rattle.mode1_rules.specs.Kinds.{has_mask, image_record, mask_record};
ghost use Rattle.mode1_rules.specs.Grammar.{records_of};
ghost use Rattle.read_records.specs.Places.{Placed, Room};

use mode1_rules::{Fields, LayerData};
use sheet_rules::{Colour, RECORD_SIZE, Record, TWO_RECORDS};
use start_rules::Head;

fn narrow(v: u32) -> u16
    requires { v ≤ 65535 }
    ensures { result ≡ v }
{
    v as u16
}

// 01: a layer that is not coded has nothing but its base colour and the main resolution.
fn absent_record(hd: Head, k: u16, layer: u8, base: Colour) -> Record
    ensures { result ≡ image_record hd k layer base 0 0 None }
{
    Record {
        stripe: k,
        layer,
        coder: 0,
        x: 0,
        y: 0,
        width: 0,
        height: 0,
        res: hd.main,
        base0: base.c0,
        base1: base.c1,
        base2: base.c2,
        octet17: 0,
        start: 0,
        len: 0,
        octets26: 0,
    }
}

// 02, 2026-07: octet 17 tells a layer of lightness alone.
fn grey_octet(components: u32) -> u8
    ensures { result ≡ grey_octet components }
{
    if components == 1 { 1 } else { 0 }
}

fn image_record(
    hd: Head,
    k: u16,
    layer: u8,
    base: Colour,
    x: u32,
    y: u32,
    c: Option<LayerData>,
) -> Record
    requires { Placed c x y }
    ensures { result ≡ image_record hd k layer base x y c }
{
    match c {
        Some(w) => Record {
            stripe: k,
            layer,
            coder: 1,
            x: narrow(x),
            y: narrow(y),
            width: w.said.width,
            height: w.said.height,
            res: w.said.res,
            base0: base.c0,
            base1: base.c1,
            base2: base.c2,
            octet17: grey_octet(w.said.components),
            start: w.start,
            len: w.size,
            octets26: 0,
        },
        None => absent_record(hd, k, layer, base),
    }
}

// 01: layer 2 has the page's width and the stripe's height, coded or not. A mask that the type does not name has coder and start 0.
fn mask_record(hd: Head, k: u16, t: u8, height: u32, start: u32, len: u32) -> Record
    requires { height ≤ 65535 }
    ensures { result ≡ mask_record hd k height (cond (has_mask t) hd.mask 0) (cond (has_mask t) start 0) len }
{
    let (coder, start) = if read_head::has_mask(t) {
        (hd.mask, start)
    } else {
        (0, 0)
    };
    let height = narrow(height);
    Record {
        stripe: k,
        layer: 2,
        coder,
        x: 0,
        y: 0,
        width: hd.width,
        height,
        res: hd.main,
        base0: 0,
        base1: 0,
        base2: 0,
        octet17: 0,
        start,
        len,
        octets26: 0,
    }
}

// The records of stripe k from octet `to` on: the mask's data stands at `mask`.
pub fn put_stripe(
    out: &mut [u8],
    to: usize,
    hd: Head,
    k: u16,
    f: Fields,
    mask: u32,
    back: Option<LayerData>,
    fore: Option<LayerData>,
)
    requires { Room out.old to f back fore }
    ensures { out.new ≡ put_at out.old to (sheet_of (records_of hd k f mask back fore)) }
{
    let colour1 = f.back;
    let colour3 = f.fore;
    let r1 = image_record(hd, k, 1, colour1, f.back_x, f.back_y, back);
    let r2 = mask_record(hd, k, f.kind, f.height, mask, f.mask_length);
    let r3 = image_record(hd, k, 3, colour3, f.fore_x, f.fore_y, fore);
    sheet_record::put_record(out, to, r1);
    sheet_record::put_record(out, to + RECORD_SIZE, r2);
    sheet_record::put_record(out, to + TWO_RECORDS, r3);
}
