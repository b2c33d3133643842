// Octets marked under a mask, one a pixel, sixteen at a time: the floors of the pixels of a part of a row are kept so, and masks alone are looked at.
#![tactic(auto)]

ghost use Rattle.std.specs.Prelude.{◌+◌, ◌-◌, ◌*◌, ◌<◌, ◌≤◌, length};
ghost use Rattle.paint_choice.specs.Choice.{Marked, ever, bits_from, Spread, mask_bits, SpreadAt, MaskPart};

use line_fetch::Row;
pub use paint_words::pick;
use pixel_rules::MainPos;

pub fn fill(sel: &mut [u8], p: usize, q: usize, v: u8)
    requires { (p ≤ q) × (q ≤ length sel.old) }
    ensures { Marked (ever 1) sel.old p q v sel.new }
{
    sel[p..q].fill(v);
}

fn choose(sel: &mut [u8], p: usize, q: usize, m: &[u8], i: usize, v: u8)
    requires { (p ≤ q) × (q ≤ length sel.old) × (i + (q - p) ≤ length m.now) }
    ensures { Marked (bits_from m.now p i) sel.old p q v sel.new }
{
    for x in p..q {
        sel[x] = paint_words::pick(m[i + (x - p)], sel[x], v);
    }
}

fn bits_by(bits: &mut [u8], m: &[u8], i: usize, n: usize, k: usize)
    requires { (0 < k) × (n * k ≤ length bits.old) × (i + n ≤ length m.now) }
    ensures { Spread m.now i k n bits.old bits.new }
{
    for q in 0..n {
        let p = q * k;
        fill(bits, p, p + k, m[i + q]);
    }
}

// Twice each, written out: the compiler does sixteen samples at a time of these two stores, and one of the loop above.
fn bits_twice(bits: &mut [u8], m: &[u8], i: usize, n: usize)
    requires { (n * 2 ≤ length bits.old) × (i + n ≤ length m.now) }
    ensures { Spread m.now i 2 n bits.old bits.new }
{
    for q in 0..n {
        let v = m[i + q];
        bits[q * 2] = v;
        bits[q * 2 + 1] = v;
    }
}

// Two octets of one number, which the compiler joins into one store.
fn put_twice(bits: &mut [u8], p: usize, v: u8)
    requires { p + 2 ≤ length bits.old }
    ensures { Marked (ever 1) bits.old p (p + 2) v bits.new }
{
    let w = u32::from(v) * 257;
    bits[p] = (w % 256) as u8;
    bits[p + 1] = (w / 256) as u8;
}

// Four times each, by two such stores: the compiler does eight samples at a time. One store of four octets wants a wider product, and four of one octet
// are no faster than a fill.
fn bits_four(bits: &mut [u8], m: &[u8], i: usize, n: usize)
    requires { (n * 4 ≤ length bits.old) × (i + n ≤ length m.now) }
    ensures { Spread m.now i 4 n bits.old bits.new }
{
    for q in 0..n {
        let v = m[i + q];
        put_twice(bits, q * 4, v);
        put_twice(bits, q * 4 + 2, v);
    }
}

// n samples, k times each; the ratios of accepted sheets are constants.
fn lay_bits(bits: &mut [u8], m: &[u8], i: usize, n: usize, k: usize)
    requires { (0 < k) × (n * k ≤ length bits.old) × (i + n ≤ length m.now) }
    ensures { Spread m.now i k n bits.old bits.new }
{
    match k {
        2 => bits_twice(bits, m, i, n),
        3 => bits_by(bits, m, i, n, 3),
        4 => bits_four(bits, m, i, n),
        6 => bits_by(bits, m, i, n, 6),
        12 => bits_by(bits, m, i, n, 12),
        _ => bits_by(bits, m, i, n, k),
    }
}

// A mask that was read, in a part of its area, as octets of its pixels: it answers where the octet of pixel x is.
pub fn spread(bits: &mut [u8], d: &[u8], m: Row, x: usize, y: usize) -> usize
    requires { MaskPart d.now m x y × (y - x + 24 ≤ length bits.old) }
    ensures { SpreadAt d.now m x y (length bits.old) result bits.new }
{
    let i = paint_image::sample_of(m, x);
    let n = paint_image::sample_of(m, y - 1) - i + 1;
    lay_bits(bits, d, m.at + i, n, m.ratio);
    x - (m.from.0 + i * m.ratio)
}

// A mask that was read, in a part of its area: pixels from x up to y, the floors starting at pixel a.
pub fn mask_read(
    sel: &mut [u8],
    bits: &mut [u8],
    d: &[u8],
    m: Row,
    v: u8,
    a: usize,
    x: usize,
    y: usize,
)
    requires { MaskPart d.now m x y × (a ≤ x) × (y - a ≤ length sel.old) × (y - x + 24 ≤ length bits.old) }
    ensures { Marked (mask_bits d.now m a) sel.old (x - a) (y - a) v sel.new }
{
    if m.ratio == 1 {
        let left: MainPos = m.from;
        choose(sel, x - a, y - a, d, m.at + (x - left.0), v);
        return;
    }
    let i = spread(bits, d, m, x, y);
    choose(sel, x - a, y - a, bits, i, v);
}
