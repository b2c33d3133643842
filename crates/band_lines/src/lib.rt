// The lines of a stripe that is to be shown, one behind the other: in groups where only layer 2 changes from line to line, else one by one.
#![tactic(auto)]

ghost use Rattle.std.specs.Prelude.{◌≡◌, true, ◌+◌, ◌*◌, ◌<◌, ◌≤◌, length};
ghost use Rattle.octets.specs.Octets.{put_at};
ghost use Rattle.line_fetch.specs.Rows.{row_size};
ghost use Rattle.line_lanes.specs.Lanes.{rows_from};
ghost use Rattle.band_rules.specs.Band.{band_lines};
ghost use Rattle.line_compose.specs.Composing.{scene_from};
ghost use Rattle.band_lines.specs.Lines.{LinesFit, SomeLinesFit, SomePut};

use line_fetch::ROWS_SIZE;
use line_lanes::LANES_SIZE;
use line_planes::Listing;
use paint_gather::{FLOORS, TABLE};
use paint_line::{BITS, PART, ROW};
use pixel_rules::MainPos;
use sheet_rules::{Colour, Extent};

// Neither layer of the pair was read.
fn unread(rows: &[usize], j: usize) -> bool
    requires { (1 ≤ j) × ((j * 2 + 1) * row_size ≤ length rows.now) × (j < 8) }
{
    let m = line_fetch::row_at(rows, j * 2);
    let r = line_fetch::row_at(rows, j * 2 + 1);
    (m.read == 0) & (r.read == 0) & (m.from.0 < m.to.0) & (r.from.0 < r.to.0)
}

// Two paintings serve a group: that is worth it for three lines, and for two where the second painting is cheap: over three layers, where layer 3 was not
// read, and where a pair was not, which hides what lies below.
fn worth(rows: &[usize], pairs: usize, g: usize) -> bool
    requires { (1 ≤ pairs) × (pairs < 8) × ((pairs * 2 + 1) * row_size ≤ length rows.now) }
    ensures { result ≡ true → 2 ≤ g }
{
    if g < 2 {
        return false;
    }
    if 2 < g {
        return true;
    }
    if pairs == 1 {
        return true;
    }
    let r = line_fetch::row_at(rows, 3);
    if (r.read == 0) & (r.from.0 < r.to.0) {
        return true;
    }
    for j in 2..=pairs {
        if unread(rows, j) {
            return true;
        }
    }
    false
}

// Lines from y on, whose rows are there, put at their place: it answers how many.
fn put_from(
    out: &mut [u8],
    y: usize,
    rows: &mut [usize],
    sel: &mut [u8],
    bits: &mut [u8],
    row: &mut [u8],
    t: &mut [usize],
    lit: &mut [u8],
    lanes: &[usize],
    sheet: &[u8],
    extent: Extent,
    samples: &[u8],
    width: usize,
    unseen: Colour,
) -> usize
    requires { SomeLinesFit sheet.now extent samples.now lanes.now y width (length out.old) (length rows.old)
        × (rows.old ≡ put_at rows.old 0 (rows_from lanes.now (record { 0 = y }) extent.layers)) × (1536 ≤ length sel.old) × (1560 ≤ length bits.old) × (2048 ≤ length row.old) × (192 ≤ length t.old) × (16 ≤ length lit.old) }
    ensures { SomePut unseen sheet.now extent samples.now lanes.now y width out.old result out.new }
{
    let first = y * width;
    let n = extent.layers as usize;
    let height = extent.height as usize;
    let g = lane_groups::group_of(lanes, n, y, height - y);
    if worth(rows, n / 2, g) {
        let w = line_lanes::lane_at(lanes, 2);
        if lane_groups::steady(w, y, g, width) {
            let m = line_fetch::row_at(rows, 2);
            band_group::put_group(
                out,
                first,
                rows,
                sel,
                bits,
                row,
                t,
                lit,
                sheet,
                samples,
                n / 2,
                m.at,
                w.step,
                g,
                width,
                unseen,
            );
            return g;
        }
    }
    band_group::paint_at(
        out,
        first,
        sel,
        bits,
        row,
        t,
        lit,
        sheet,
        samples,
        rows,
        n / 2,
        width,
        unseen,
    );
    1
}

// Lines from y on.
fn put_some(
    out: &mut [u8],
    y: usize,
    rows: &mut [usize],
    sel: &mut [u8],
    bits: &mut [u8],
    row: &mut [u8],
    t: &mut [usize],
    lit: &mut [u8],
    lanes: &[usize],
    sheet: &[u8],
    extent: Extent,
    samples: &[u8],
    width: usize,
    unseen: Colour,
) -> usize
    requires { SomeLinesFit sheet.now extent samples.now lanes.now y width (length out.old) (length rows.old) × (1536 ≤ length sel.old) × (1560 ≤ length bits.old) × (2048 ≤ length row.old) × (192 ≤ length t.old) × (16 ≤ length lit.old) }
    ensures { SomePut unseen sheet.now extent samples.now lanes.now y width out.old result out.new }
{
    line_lanes::lane_rows(rows, lanes, extent.layers as usize, MainPos(y));
    put_from(
        out, y, rows, sel, bits, row, t, lit, lanes, sheet, extent, samples, width, unseen,
    )
}

// All lines.
pub fn put_lines(
    out: &mut [u8],
    sheet: &[u8],
    extent: Extent,
    list: Listing,
    samples: &[u8],
    width: usize,
    unseen: Colour,
)
    requires { LinesFit (scene_from sheet.now extent list samples.now) width (length out.old) }
    ensures { out.new ≡ put_at out.old 0 (band_lines unseen (scene_from sheet.now extent list samples.now) extent.height) }
{
    let height = extent.height as usize;
    let mut lanes: [usize; LANES_SIZE] = [0; LANES_SIZE];
    line_lanes::put_lanes(&mut lanes, sheet, extent, list);
    let mut rows: [usize; ROWS_SIZE] = [0; ROWS_SIZE];
    let mut sel: [u8; PART] = [0; PART];
    let mut bits: [u8; BITS] = [0; BITS];
    let mut row: [u8; ROW] = [0; ROW];
    let mut t: [usize; TABLE] = [0; TABLE];
    let mut lit: [u8; FLOORS] = [0; FLOORS];
    let mut y: usize = 0;
    while y < height {
        y += put_some(
            out, y, &mut rows, &mut sel, &mut bits, &mut row, &mut t, &mut lit, &lanes, sheet,
            extent, samples, width, unseen,
        );
    }
}
