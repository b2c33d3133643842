// The rows of a line: for each layer of a stripe what one line of the picture needs of it, worked out once a line.
#![tactic(auto)]

ghost use Rattle.std.specs.Prelude.{◌≡◌, ◌+◌, ◌-◌, ◌*◌, ◌/◌, ◌<◌, ◌≤◌, length};
ghost use Rattle.octets.specs.Octets.{put_at};
ghost use Rattle.pixel_rules.specs.Place.{left_of, top_of, area_end, covers};
ghost use Rattle.line_planes.specs.Listing.{entries_of};
ghost use Rattle.line_fetch.specs.Rows.{row_size, numbers_of};
ghost use Rattle.line_rows.specs.Rows.{row_in, row_out, row_by, other_of, row_of, rows_of, Covered, Layer, Standing};

use line_fetch::{ROW_SIZE, Row};
use line_planes::Listing;
use pixel_rules::{MainPos, SamplePos};
use sheet_rules::{Extent, RECORD_SIZE, Record};

// A layer's offset along a line, as a place.
pub fn left_of(r: Record) -> MainPos
    ensures { (result ≡ left_of r) × (result.0 < 65536) }
{
    MainPos(octets_get::wide16(r.x))
}

// A layer's offset down its stripe, as a place.
pub fn top_of(r: Record) -> MainPos
    ensures { (result ≡ top_of r) × (result.0 < 65536) }
{
    MainPos(octets_get::wide16(r.y))
}

// Where n samples of ratio main pixels each end, from an offset on.
pub fn area_end(o: MainPos, n: usize, ratio: usize) -> MainPos
    requires { (o.0 < 65536) × (n < 65536) × (ratio < 65536) }
    ensures { result ≡ area_end o n ratio }
{
    MainPos(o.0 + n * ratio)
}

// The line crosses the layer's area.
pub fn line_covers(o: MainPos, n: usize, ratio: usize, y: MainPos) -> bool
    requires { (o.0 < 65536) × (n < 65536) × (ratio < 65536) }
    ensures { result ≡ covers o n ratio y }
{
    let to = area_end(o, n, ratio);
    (o.0 <= y.0) & (y.0 < to.0)
}

// Where the samples of a row start, so many rows down, of so many octets each.
pub fn row_start(a: u32, width: u16, each: usize, down: SamplePos) -> usize
    requires { (down.0 < 65536) × (each ≤ 3) }
    ensures { result ≡ a + down.0 * width * each }
{
    let n = down.0 * octets_get::wide16(width);
    a as usize + line_sample::sample_octets(n, each)
}

// A layer that the line crosses.
pub fn row_in(r: Record, ratio: usize, y: MainPos, p: Option<u32>, other: usize) -> Row
    requires { Covered r ratio y }
    ensures { result ≡ row_in r ratio y p other }
{
    let from = left_of(r);
    let to = area_end(from, octets_get::wide16(r.width), ratio);
    let factor = line_sample::factor_of(ratio);
    match p {
        None => Row {
            from: from,
            to: to,
            factor: factor,
            read: 0,
            at: 0,
            other: other,
            ratio: ratio,
        },
        Some(a) => {
            let each = line_sample::depth_of(r);
            let down = line_sample::scale_pos(ratio, factor, top_of(r), y);
            Row {
                from: from,
                to: to,
                factor: factor,
                read: each,
                at: row_start(a, r.width, each, down),
                other: other,
                ratio: ratio,
            }
        }
    }
}

// A layer that is not coded, or that the line passes by: it gives the same all along.
pub fn row_out(other: usize) -> Row
    ensures { result ≡ row_out other }
{
    Row {
        from: MainPos(0),
        to: MainPos(0),
        factor: line_sample::factor_of(1),
        read: 0,
        at: 0,
        other: other,
        ratio: 1,
    }
}

pub fn row_by(r: Record, ratio: usize, y: MainPos, p: Option<u32>, other: usize) -> Row
    requires { (0 < ratio) × (ratio < 65536) }
    ensures { result ≡ row_by r ratio y p other }
{
    if r.len == 0 {
        return row_out(other);
    }
    if line_covers(top_of(r), octets_get::wide16(r.height), ratio, y) {
        row_in(r, ratio, y, p, other)
    } else {
        row_out(other)
    }
}

// What a layer gives outside its area: a mask its value, an image layer the place of its base colour in the sheet. An uncoded layer 2 gives 1 all
// over a stripe whose layer 3 is coded.
pub fn other_of(coded3: bool, r: Record, i: usize, l: usize) -> usize
    requires { i < 17179869184 }
    ensures { result ≡ other_of coded3 r i l }
{
    if l % 2 == 0 {
        if (r.len == 0) & (l == 2) & coded3 {
            1
        } else {
            0
        }
    } else {
        i * RECORD_SIZE + 14
    }
}

// Main pixels a sample.
pub fn ratio_of(main: u16, res: u16) -> usize
    requires { 0 < res }
    ensures { (result ≡ main / res) × (result < 65536) }
{
    octets_get::wide16(main / res)
}

// The row of layer l, the main resolution and whether layer 3 is coded being known.
pub fn layer_row(
    sheet: &[u8],
    extent: Extent,
    list: Listing,
    main: u16,
    coded3: bool,
    y: MainPos,
    l: usize,
) -> Row
    requires { Layer sheet.now extent main coded3 l }
    ensures { result ≡ row_of sheet.now extent (entries_of list) y l }
{
    let i = extent.first as usize + (l - 1);
    let r = sheet_record::record_at(sheet, i);
    let ratio = ratio_of(main, r.res);
    let p = line_planes::start_of(list, l as u8);
    row_by(r, ratio, y, p, other_of(coded3, r, i, l))
}

pub fn put_row(rows: &mut [usize], l: usize, w: Row)
    requires { (1 ≤ l) × (l * row_size ≤ length rows.old) }
    ensures { rows.new ≡ put_at rows.old ((l - 1) * row_size) (numbers_of w) }
{
    let b = (l - 1) * ROW_SIZE;
    rows[b] = w.from.0;
    rows[b + 1] = w.to.0;
    rows[b + 2] = w.factor;
    rows[b + 3] = w.read;
    rows[b + 4] = w.at;
    rows[b + 5] = w.other;
    rows[b + 6] = w.ratio;
}

// The rows of all layers, one after the other.
pub fn put_rows(rows: &mut [usize], sheet: &[u8], extent: Extent, list: Listing, y: MainPos)
    requires { Standing sheet.now extent × (extent.layers * row_size ≤ length rows.old) }
    ensures { rows.new ≡ put_at rows.old 0 (rows_of sheet.now extent (entries_of list) y extent.layers) }
{
    let first = extent.first as usize;
    let n = extent.layers as usize;
    let second = sheet_record::record_at(sheet, first + 1);
    let third = sheet_record::record_at(sheet, first + 2);
    let main = second.res;
    let coded3 = third.len != 0;
    for l in 1..=n {
        let w = layer_row(sheet, extent, list, main, coded3, y, l);
        put_row(rows, l, w);
    }
}
