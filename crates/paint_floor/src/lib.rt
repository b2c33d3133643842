// The floors of the pixels of a part of a row, pair by pair from the lowest up: masks alone are looked at. What lies below a pixel's floor is then not
// painted at all.
#![tactic(auto)]

ghost use Rattle.std.specs.Prelude.{◌≡◌, true, ◌+◌, ◌-◌, ◌*◌, ◌<◌, ◌≤◌, length};
ghost use Rattle.line_fetch.specs.Rows.{MaskFits};
ghost use Rattle.line_pixel.specs.Rows.{RowsFit};
ghost use Rattle.paint_image.specs.Image.{Between};
ghost use Rattle.paint_choice.specs.Choice.{Marked, ever};
ghost use Rattle.paint_floor.specs.Floors.{inside_bits, MarkOf, Covers, PlainRows, Sure, Starts};

use line_fetch::Row;

// The floor of a pixel of which nothing can be known.
pub const DARK: u8 = 8;

// The layer's area has all pixels from a up to b.
pub fn spans(r: Row, a: usize, b: usize) -> bool
    ensures { result ≡ true → Between r a b }
{
    if r.from.0 <= a {
        return b <= r.to.0;
    }
    false
}

// What stands for pair j over a part: nothing is known where its image layer is not read.
fn mark(r: Row, j: u8, a: usize, b: usize) -> u8
    requires { j < 8 }
    ensures { MarkOf r j a b result }
{
    if r.read == 0 {
        if spans(r, a, b) {
            return DARK;
        }
    }
    j
}

// Beside a mask's area, where it gives one value all along.
fn mark_beside(sel: &mut [u8], p: usize, q: usize, other: usize, j: u8)
    requires { (p ≤ q) × (q ≤ length sel.old) }
    ensures { Marked (ever other) sel.old p q j sel.new }
{
    if other != 0 {
        paint_choice::fill(sel, p, q, j);
    }
}

// In its area, from pixel x up to y.
fn mark_inside(
    sel: &mut [u8],
    bits: &mut [u8],
    d: &[u8],
    m: Row,
    v: u8,
    a: usize,
    x: usize,
    y: usize,
)
    requires { MaskFits d.now m × (m.ratio ≤ 12) × Between m x y × (y < 65536) × (a ≤ x) × (x ≤ y) × (y - a ≤ length sel.old) × (y - x + 24 ≤ length bits.old) }
    ensures { Marked (inside_bits d.now m v a) sel.old (x - a) (y - a) v sel.new }
{
    if y <= x {
        return;
    }
    if m.read != 0 {
        paint_choice::mask_read(sel, bits, d, m, v, a, x, y);
        return;
    }
    if v == DARK {
        paint_choice::fill(sel, x - a, y - a, DARK);
    }
}

// One pair more: the floors after j pairs become those after j + 1.
fn mask_pair(
    sel: &mut [u8],
    bits: &mut [u8],
    s: &[u8],
    d: &[u8],
    rows: &[usize],
    pairs: usize,
    f: usize,
    j: usize,
    a: usize,
    b: usize,
)
    requires { RowsFit s.now d.now rows.now pairs × PlainRows rows.now pairs × Sure s.now d.now rows.now f a (b - a) j sel.old × (f ≤ j) × (j < pairs)
        × (pairs ≤ 7) × (a ≤ b) × (b < 65536) × (b - a + 24 ≤ length bits.old) }
    ensures { Sure s.now d.now rows.now f a (b - a) (j + 1) sel.new }
{
    let p = j + 1;
    let m = line_fetch::row_at(rows, p * 2);
    let r = line_fetch::row_at(rows, p * 2 + 1);
    let x = paint_image::within(m.from.0, a, b);
    let y = paint_image::within(m.to.0, x, b);
    let v = mark(r, p as u8, x, y);
    mark_beside(sel, 0, x - a, m.other, p as u8);
    mark_inside(sel, bits, d, m, v, a, x, y);
    mark_beside(sel, y - a, b - a, m.other, p as u8);
}

// The pair shows its image layer all over a part, whatever lies below: its mask is 1 without samples, or neither of its layers is read.
pub fn covers(m: Row, r: Row, a: usize, b: usize) -> bool
    ensures { result ≡ true → Covers m r a b }
{
    if m.other != 0 {
        return m.to.0 <= m.from.0;
    }
    if m.read == 0 {
        if r.read == 0 {
            if spans(m, a, b) {
                return spans(r, a, b);
            }
        }
    }
    false
}

// The highest pair that does, or 0: nothing below it is looked at.
pub fn first_pair(s: &[u8], d: &[u8], rows: &[usize], pairs: usize, a: usize, b: usize) -> usize
    requires { RowsFit s.now d.now rows.now pairs × (pairs ≤ 7) }
    ensures { Starts s.now d.now rows.now pairs a b result }
{
    for j in (1..=pairs).rev() {
        let m = line_fetch::row_at(rows, j * 2);
        let r = line_fetch::row_at(rows, j * 2 + 1);
        if covers(m, r, a, b) {
            return j;
        }
    }
    0
}

// The floors of the pixels a up to b, from pair f on.
pub fn put_floors(
    sel: &mut [u8],
    bits: &mut [u8],
    s: &[u8],
    d: &[u8],
    rows: &[usize],
    pairs: usize,
    f: usize,
    a: usize,
    b: usize,
)
    requires { RowsFit s.now d.now rows.now pairs × PlainRows rows.now pairs × Starts s.now d.now rows.now pairs a b f × (pairs ≤ 7) × (a ≤ b) × (b < 65536)
        × (b - a ≤ length sel.old) × (b - a + 24 ≤ length bits.old) }
    ensures { Sure s.now d.now rows.now f a (b - a) pairs sel.new }
{
    let v = mark(line_fetch::row_at(rows, f * 2 + 1), f as u8, a, b);
    paint_choice::fill(sel, 0, b - a, v);
    for j in f..pairs {
        mask_pair(sel, bits, s, d, rows, pairs, f, j, a, b);
    }
}
