// The verdict on a line: the sheet, the stripe and line, the plane list. It writes nothing.
#![tactic(auto)]

ghost use Rattle.std.specs.Prelude.{◌≡◌, ◌&&◌, ◌+◌, ◌<◌, leb};
ghost use Rattle.sheet_rules.specs.Judge.{coded};
ghost use Rattle.pixel_rules.specs.Samples.{plane_span};
ghost use Rattle.picture_rules.specs.Line.{plane_ok, planes_judged, ruling_of};
ghost use Rattle.line_planes.specs.Listing.{entries_of};
ghost use Rattle.line_verdict.specs.Ruled.{bare_scene, list_from, line_ruling, ruled_of};
ghost use Rattle.sheet_table.specs.Steps.{Whole, JudgedGood};

use answers::Refusal;
use line_planes::Listing;
use pixel_rules::Plane;
use sheet_rules::{Extent, Record};

// The octets of all samples of a layer.
pub fn plane_span(r: Record) -> usize
    ensures { (result ≡ plane_span r) × (result < 12884901888) }
{
    let n = octets_get::wide16(r.width) * octets_get::wide16(r.height);
    line_sample::sample_octets(n, line_sample::depth_of(r))
}

// The layer is coded, and its samples lie in a buffer of so many octets.
pub fn plane_within(p: Plane, r: Record, room: usize) -> bool
    ensures { result ≡ coded r && leb (p.start + plane_span r) room }
{
    if r.len == 0 {
        return false;
    }
    let span = plane_span(r);
    p.start as usize + span <= room
}

// An entry after one of layer `last`.
pub fn plane_ok(sheet: &[u8], extent: Extent, samples: &[u8], last: u8, p: Plane) -> bool
    requires { Whole sheet.now extent }
    ensures { result ≡ plane_ok (bare_scene sheet.now extent samples.now) last p }
{
    if p.layer <= last {
        return false;
    }
    let l = p.layer as usize;
    if (extent.layers as usize) < l {
        return false;
    }
    let r = sheet_record::record_at(sheet, extent.first as usize + (l - 1));
    plane_within(p, r, samples.len())
}

pub fn judge_planes(
    sheet: &[u8],
    extent: Extent,
    samples: &[u8],
    list: Listing,
    part: bool,
) -> Result<(), u32>
    requires { Whole sheet.now extent }
    ensures { result ≡ planes_judged (bare_scene sheet.now extent samples.now) part 0 0 (entries_of list) }
{
    let n = line_planes::entry_count(list);
    let mut last: u8 = 0;
    for i in 0..n {
        let p = line_planes::entry_at(list, i);
        if !plane_ok(sheet, extent, samples, last, p) {
            return Err(i as u32);
        }
        last = p.layer;
    }
    if part { Err(n as u32) } else { Ok(()) }
}

// A stripe of the sheet: the line before the plane list.
pub fn rule_line(
    sheet: &[u8],
    extent: Extent,
    list: Listing,
    part: bool,
    samples: &[u8],
    line: u32,
) -> Result<Extent, Refusal>
    requires { Whole sheet.now extent }
    ensures { result ≡ ruled_of (line_ruling sheet.now (list_from list part) samples.now line extent) }
{
    if extent.height <= line {
        return Err(Refusal::BadLine);
    }
    judge_planes(sheet, extent, samples, list, part).map_err(Refusal::BadPlane)?;
    Ok(extent)
}

// A sheet that the judge takes: the stripe before the line.
pub fn rule_stripe(
    sheet: &[u8],
    list: Listing,
    part: bool,
    samples: &[u8],
    stripe: u32,
    line: u32,
) -> Result<Extent, Refusal>
    requires { JudgedGood sheet.now }
    ensures { result ≡ ruled_of (ruling_of sheet.now (list_from list part) samples.now stripe line) }
{
    // as `.ok_or(Refusal::BadLine)?` the proof of what rule_line asks did not close
    let Some(extent) = sheet_table::find_stripe(sheet, stripe as usize) else {
        return Err(Refusal::BadLine);
    };
    rule_line(sheet, extent, list, part, samples, line)
}

pub fn judge_line(
    sheet: &[u8],
    list: Listing,
    part: bool,
    samples: &[u8],
    stripe: u32,
    line: u32,
) -> Result<Extent, Refusal>
    ensures { result ≡ ruled_of (ruling_of sheet.now (list_from list part) samples.now stripe line) }
{
    // not by map_err: its closure would ask that the record's number fits, which is known here alone
    if let Err(record) = sheet_judge::judge(sheet) {
        return Err(Refusal::BadSheet(record as u32));
    }
    rule_stripe(sheet, list, part, samples, stripe, line)
}
