// The lanes of a band: for each layer of a stripe what does not depend on the line, worked out once a band, and from it the rows of a line.
#![tactic(auto)]

ghost use Rattle.std.specs.Prelude.{◌≡◌, ◌+◌, ◌-◌, ◌*◌, ◌<◌, ◌≤◌, length};
ghost use Rattle.octets.specs.Octets.{put_at};
ghost use Rattle.line_planes.specs.Listing.{entries_of};
ghost use Rattle.line_fetch.specs.Rows.{row_size};
ghost use Rattle.line_rows.specs.Rows.{Layer, Standing};
ghost use Rattle.line_lanes.specs.Lanes.{lane_size, lane_at, lane_numbers, bottom_of, read_of, first_of, lane_by, lane_of, lanes_of, row_from, rows_from, LaneFits, LanesFit};

use line_fetch::Row;
use line_planes::Listing;
use pixel_rules::MainPos;
use sheet_rules::{Extent, Record};

// How many numbers a lane has among the lanes of a band.
pub const LANE_SIZE: usize = 10;

// The numbers of the lanes of 15 layers, as many as a stripe has at most.
pub const LANES_SIZE: usize = 15 * LANE_SIZE;

// A layer in all lines of a stripe: what its row has in each line that crosses it, with `start` for the first of its rows of samples; its main lines
// `top` up to `bottom` (0 if it is not coded: no line crosses it); and how many octets further down each row of samples stands. A layer that was not
// read starts at 0 and steps by 0, so that a line need not ask.
#[derive(Clone, Copy)]
pub struct Lane {
    pub from: MainPos,
    pub to: MainPos,
    pub factor: usize,
    pub read: usize,
    pub start: usize,
    pub other: usize,
    pub ratio: usize,
    pub top: MainPos,
    pub bottom: MainPos,
    pub step: usize,
}

// Behind the last line that crosses a layer: no layer has more than 65535 rows of samples.
pub fn bottom_of(r: Record, ratio: usize) -> MainPos
    requires { ratio < 65536 }
    ensures { (result ≡ bottom_of r ratio) × (result.0 ≤ r.y + 65535 * ratio) }
{
    if r.len == 0 {
        return MainPos(0);
    }
    line_rows::area_end(line_rows::top_of(r), octets_get::wide16(r.height), ratio)
}

// The octets a sample of a layer that was read; 0 if it was not.
pub fn read_of(r: Record, p: Option<u32>) -> usize
    ensures { (result ≡ read_of r p) × (result ≤ 3) }
{
    match p {
        None => 0,
        Some(_) => line_sample::depth_of(r),
    }
}

// Where the samples of a layer start; 0 if it was not read.
pub fn first_of(p: Option<u32>) -> usize
    ensures { (result ≡ first_of p) × (result < 4294967296) }
{
    match p {
        None => 0,
        Some(a) => a as usize,
    }
}

pub fn lane_by(r: Record, ratio: usize, p: Option<u32>, other: usize) -> Lane
    requires { (0 < ratio) × (ratio < 65536) }
    ensures { (result ≡ lane_by r ratio p other) × LaneFits result }
{
    let from = line_rows::left_of(r);
    let width = octets_get::wide16(r.width);
    let each = read_of(r, p);
    Lane {
        from: from,
        to: line_rows::area_end(from, width, ratio),
        factor: line_sample::factor_of(ratio),
        read: each,
        start: first_of(p),
        other: other,
        ratio: ratio,
        top: line_rows::top_of(r),
        bottom: bottom_of(r, ratio),
        step: line_sample::sample_octets(width, each),
    }
}

// The lane of layer l, the main resolution and whether layer 3 is coded being known.
pub fn layer_lane(
    sheet: &[u8],
    extent: Extent,
    list: Listing,
    main: u16,
    coded3: bool,
    l: usize,
) -> Lane
    requires { Layer sheet.now extent main coded3 l }
    ensures { (result ≡ lane_of sheet.now extent (entries_of list) l) × LaneFits result }
{
    let i = extent.first as usize + (l - 1);
    let r = sheet_record::record_at(sheet, i);
    let ratio = line_rows::ratio_of(main, r.res);
    let p = line_planes::start_of(list, l as u8);
    lane_by(r, ratio, p, line_rows::other_of(coded3, r, i, l))
}

pub fn put_lane(lanes: &mut [usize], l: usize, w: Lane)
    requires { (1 ≤ l) × (l * lane_size ≤ length lanes.old) }
    ensures { lanes.new ≡ put_at lanes.old ((l - 1) * lane_size) (lane_numbers w) }
{
    let b = (l - 1) * LANE_SIZE;
    lanes[b] = w.from.0;
    lanes[b + 1] = w.to.0;
    lanes[b + 2] = w.factor;
    lanes[b + 3] = w.read;
    lanes[b + 4] = w.start;
    lanes[b + 5] = w.other;
    lanes[b + 6] = w.ratio;
    lanes[b + 7] = w.top.0;
    lanes[b + 8] = w.bottom.0;
    lanes[b + 9] = w.step;
}

// The lanes of all layers, one after the other.
pub fn put_lanes(lanes: &mut [usize], sheet: &[u8], extent: Extent, list: Listing)
    requires { Standing sheet.now extent × (extent.layers * lane_size ≤ length lanes.old) }
    ensures { (lanes.new ≡ put_at lanes.old 0 (lanes_of sheet.now extent (entries_of list) extent.layers)) × LanesFit lanes.new extent.layers }
{
    let first = extent.first as usize;
    let n = extent.layers as usize;
    let second = sheet_record::record_at(sheet, first + 1);
    let third = sheet_record::record_at(sheet, first + 2);
    let main = second.res;
    let coded3 = third.len != 0;
    for l in 1..=n {
        let w = layer_lane(sheet, extent, list, main, coded3, l);
        put_lane(lanes, l, w);
    }
}

// The lane of layer l. The lanes stand flat in one lent slice, from layer 1 on, as the rows do.
pub fn lane_at(lanes: &[usize], l: usize) -> Lane
    requires { (1 ≤ l) × (l * lane_size ≤ length lanes.now) }
    ensures { result ≡ lane_at lanes.now l }
{
    let b = (l - 1) * LANE_SIZE;
    Lane {
        from: MainPos(lanes[b]),
        to: MainPos(lanes[b + 1]),
        factor: lanes[b + 2],
        read: lanes[b + 3],
        start: lanes[b + 4],
        other: lanes[b + 5],
        ratio: lanes[b + 6],
        top: MainPos(lanes[b + 7]),
        bottom: MainPos(lanes[b + 8]),
        step: lanes[b + 9],
    }
}

// So many rows of samples down.
pub fn steps_down(start: usize, down: usize, step: usize) -> usize
    requires { (start < 4294967296) × (down < 65536) × (step < 196608) }
    ensures { result ≡ start + down * step }
{
    start + down * step
}

// The row of a layer in line y.
pub fn row_from(w: Lane, y: MainPos) -> Row
    requires { LaneFits w }
    ensures { result ≡ row_from w y }
{
    if y.0 < w.top.0 {
        return line_rows::row_out(w.other);
    }
    if w.bottom.0 <= y.0 {
        return line_rows::row_out(w.other);
    }
    let down = line_sample::scale_pos(w.ratio, w.factor, w.top, y);
    let from = w.from;
    let to = w.to;
    Row {
        from: from,
        to: to,
        factor: w.factor,
        read: w.read,
        at: steps_down(w.start, down.0, w.step),
        other: w.other,
        ratio: w.ratio,
    }
}

// The rows of n layers in line y, one after the other.
pub fn lane_rows(rows: &mut [usize], lanes: &[usize], n: usize, y: MainPos)
    requires { LanesFit lanes.now n × (n * row_size ≤ length rows.old) }
    ensures { rows.new ≡ put_at rows.old 0 (rows_from lanes.now y n) }
{
    for l in 1..=n {
        let r = row_from(lane_at(lanes, l), y);
        line_rows::put_row(rows, l, r);
    }
}
