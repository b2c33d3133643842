// A part of a row painted layer by layer, from the lowest that shows up: each pair over what is there.
#![tactic(auto)]

ghost use Rattle.std.specs.Prelude.{◌≡◌, ◌+◌, ◌-◌, ◌*◌, ◌<◌, ◌≤◌, length, None};
ghost use Rattle.picture_rules.specs.Line.{four_of};
ghost use Rattle.line_fetch.specs.Rows.{row_at, MaskFits, ImageFits};
ghost use Rattle.line_pixel.specs.Rows.{RowsFit};
ghost use Rattle.paint_words.specs.Words.{octets_of};
ghost use Rattle.paint_coat.specs.Coat.{Coated};
ghost use Rattle.paint_image.specs.Image.{Plain, Between, Beside};
ghost use Rattle.paint_floor.specs.Floors.{PlainRows, Starts};
ghost use Rattle.paint_layers.specs.Layers.{stepping, decided, Lowest};

use line_fetch::Row;
use sheet_rules::Colour;

// Beside a mask's area, where it gives one value all along.
fn lay_beside(out: &mut [u8], s: &[u8], d: &[u8], m: Row, r: Row, x: usize, y: usize, u: u32)
    requires { Beside m x y × ImageFits s.now d.now r × Plain r × (x ≤ y) × (y < 65536) × (y * 4 ≤ length out.old) }
    ensures { Coated (stepping (octets_of u) s.now d.now m r) out.old x y out.new }
{
    if m.other != 0 {
        paint_image::lay_image(out, x, s, d, r, x, y, u);
    }
}

// In its area, from pixel x up to y.
fn lay_inside(
    out: &mut [u8],
    row: &mut [u8],
    bits: &mut [u8],
    s: &[u8],
    d: &[u8],
    m: Row,
    r: Row,
    x: usize,
    y: usize,
    u: u32,
)
    requires { MaskFits d.now m × (m.ratio ≤ 12) × Between m x y × ImageFits s.now d.now r × Plain r × (x ≤ y) × (y < 65536) × (y * 4 ≤ length out.old) × (y - x + 24 ≤ length bits.old)
        × (2048 ≤ length row.old) }
    ensures { Coated (stepping (octets_of u) s.now d.now m r) out.old x y out.new }
{
    if y <= x {
        return;
    }
    if m.read == 0 {
        paint_layer::agree_under(out, row, s, d, r, x, y, u);
        return;
    }
    paint_layer::pick_under(out, row, bits, s, d, m, r, x, y, u);
}

// Pair j + 1 over the part.
fn layer_pair(
    out: &mut [u8],
    row: &mut [u8],
    bits: &mut [u8],
    s: &[u8],
    d: &[u8],
    rows: &[usize],
    pairs: usize,
    j: usize,
    a: usize,
    b: usize,
    u: u32,
)
    requires { RowsFit s.now d.now rows.now pairs × PlainRows rows.now pairs × (j < pairs) × (pairs ≤ 7) × (a ≤ b) × (b < 65536) × (b * 4 ≤ length out.old) × (b - a + 24 ≤ length bits.old) × (2048 ≤ length row.old) }
    ensures { Coated (stepping (octets_of u) s.now d.now (row_at rows.now ((j + 1) * 2)) (row_at rows.now ((j + 1) * 2 + 1))) out.old a b out.new }
{
    let p = j + 1;
    let m = line_fetch::row_at(rows, p * 2);
    let r = line_fetch::row_at(rows, p * 2 + 1);
    let x = paint_image::within(m.from.0, a, b);
    let y = paint_image::within(m.to.0, x, b);
    lay_beside(out, s, d, m, r, a, x, u);
    lay_inside(out, row, bits, s, d, m, r, x, y, u);
    lay_beside(out, s, d, m, r, y, b, u);
}

// The lowest layer, with the pair above it if that one's mask was read all along: it answers which pair was the last.
fn lay_lowest(
    out: &mut [u8],
    row: &mut [u8],
    bits: &mut [u8],
    s: &[u8],
    d: &[u8],
    rows: &[usize],
    pairs: usize,
    f: usize,
    a: usize,
    b: usize,
    unseen: Colour,
    u: u32,
) -> usize
    requires { RowsFit s.now d.now rows.now pairs × PlainRows rows.now pairs × Starts s.now d.now rows.now pairs a b f × (f < pairs) × (pairs ≤ 7) × (a < b) × (b < 65536) × (b * 4 ≤ length out.old) × (b - a + 24 ≤ length bits.old)
        × (2048 ≤ length row.old) × (octets_of u ≡ four_of unseen None) }
    ensures { Lowest unseen s.now d.now rows.now pairs a b out.old result out.new }
{
    let low = line_fetch::row_at(rows, f * 2 + 1);
    let m = line_fetch::row_at(rows, f * 2 + 2);
    if m.read != 0 {
        if paint_floor::spans(m, a, b) {
            let up = line_fetch::row_at(rows, f * 2 + 3);
            paint_layer::two_under(out, row, bits, s, d, m, low, up, a, b, u);
            return f + 1;
        }
    }
    paint_image::lay_image(out, a, s, d, low, a, b, u);
    f
}

// The pixels a up to b, pair f showing its image layer over them.
pub fn lay_layers(
    out: &mut [u8],
    row: &mut [u8],
    bits: &mut [u8],
    s: &[u8],
    d: &[u8],
    rows: &[usize],
    pairs: usize,
    f: usize,
    a: usize,
    b: usize,
    unseen: Colour,
    u: u32,
)
    requires { RowsFit s.now d.now rows.now pairs × PlainRows rows.now pairs × Starts s.now d.now rows.now pairs a b f × (f < pairs) × (pairs ≤ 7) × (a < b) × (b < 65536) × (b * 4 ≤ length out.old) × (b - a + 24 ≤ length bits.old)
        × (2048 ≤ length row.old) × (octets_of u ≡ four_of unseen None) }
    ensures { Coated (decided unseen s.now d.now rows.now pairs) out.old a b out.new }
{
    let lowest = lay_lowest(out, row, bits, s, d, rows, pairs, f, a, b, unseen, u);
    for j in lowest..pairs {
        layer_pair(out, row, bits, s, d, rows, pairs, j, a, b, u);
    }
}
