// A part of a row by its layers where most of it is dark: masks alone tell of most pixels that nothing can be known. Blocks of such pixels are filled, and
// layers are painted only between them.
#![tactic(auto)]

ghost use Rattle.std.specs.Prelude.{◌≡◌, true, ◌+◌, ◌-◌, ◌*◌, ◌<◌, ◌≤◌, length, None};
ghost use Rattle.picture_rules.specs.Line.{four_of};
ghost use Rattle.line_pixel.specs.Rows.{RowsFit};
ghost use Rattle.paint_rules.specs.Floor.{dark};
ghost use Rattle.paint_words.specs.Words.{octets_of};
ghost use Rattle.paint_coat.specs.Coat.{Coated};
ghost use Rattle.paint_blocks.specs.Blocks.{Alike};
ghost use Rattle.paint_floor.specs.Floors.{PlainRows, Sure, Starts};
ghost use Rattle.paint_layers.specs.Layers.{decided};
ghost use Rattle.paint_lit.specs.Lit.{DarkUpTo};

use paint_floor::DARK;
use sheet_rules::Colour;

const BLOCK: usize = 64;

// Fewer dark pixels than these are not worth a part of their own.
const STRETCH: usize = 2 * BLOCK;

// All are looked at, whatever is found: a fixed count without another way out is done sixteen octets at a time.
fn dark_block(sel: &[u8], i: usize) -> bool
    requires { i + 64 ≤ length sel.now }
    ensures { result ≡ true → Alike dark sel.now i (i + 64) }
{
    let mut all = true;
    for j in 0..BLOCK {
        all &= sel[i + j] == DARK;
    }
    all
}

// How far dark blocks go on from i: a place that is answered, in steps of a block. As a search over chunks it is no plainer, and so are those below.
fn dark_end(sel: &[u8], i: usize, n: usize) -> usize
    requires { (i ≤ n) × (n ≤ length sel.now) }
    ensures { DarkUpTo sel.now i n result }
{
    let mut e = i;
    while BLOCK <= n - e {
        if !dark_block(sel, e) {
            return e;
        }
        e += BLOCK;
    }
    e
}

// Where behind i the next dark stretch begins.
fn lit_end(sel: &[u8], i: usize, n: usize) -> usize
    requires { (i < n) × (n ≤ length sel.now) }
    ensures { (i < result) × (result ≤ n) }
{
    let mut e = i;
    while BLOCK + STRETCH <= n - e {
        e += BLOCK;
        if dark_block(sel, e) & dark_block(sel, e + BLOCK) {
            return e;
        }
    }
    n
}

// The same two of floors that may not be there: then nothing is known to be dark.
fn dark_told(sel: &[u8], i: usize, n: usize, told: bool) -> usize
    requires { (i ≤ n) × (n ≤ length sel.now) }
    ensures { DarkUpTo sel.now i n result × (i < result → told ≡ true) }
{
    if told { dark_end(sel, i, n) } else { i }
}

fn lit_told(sel: &[u8], i: usize, n: usize, told: bool) -> usize
    requires { (i < n) × (n ≤ length sel.now) }
    ensures { (i < result) × (result ≤ n) }
{
    if told { lit_end(sel, i, n) } else { n }
}

// The pixels a up to b: what is dark is filled, if the floors tell it, and all else painted. Layers are painted at one place in the code, so that the
// compiler takes them in here.
fn lay_between(
    out: &mut [u8],
    sel: &[u8],
    row: &mut [u8],
    bits: &mut [u8],
    s: &[u8],
    d: &[u8],
    rows: &[usize],
    pairs: usize,
    f: usize,
    a: usize,
    b: usize,
    told: bool,
    unseen: Colour,
    u: u32,
)
    requires { RowsFit s.now d.now rows.now pairs × PlainRows rows.now pairs × Starts s.now d.now rows.now pairs a b f × (told ≡ true → Sure s.now d.now rows.now f a (b - a) pairs sel.now)
        × (b - a ≤ length sel.now) × (f < pairs) × (pairs ≤ 7) × (a ≤ b) × (b < 65536) × (b * 4 ≤ length out.old) × (b - a + 24 ≤ length bits.old) × (2048 ≤ length row.old) × (octets_of u ≡ four_of unseen None) }
    ensures { Coated (decided unseen s.now d.now rows.now pairs) out.old a b out.new }
{
    let n = b - a;
    let mut i = 0;
    while i < n {
        let e = dark_told(sel, i, n, told);
        if STRETCH <= e - i {
            paint_coat::lay_flat(out, a + i, a + e, u);
            i = e;
        } else {
            let q = lit_told(sel, i, n, told);
            paint_layers::lay_layers(
                out,
                row,
                bits,
                s,
                d,
                rows,
                pairs,
                f,
                a + i,
                a + q,
                unseen,
                u,
            );
            i = q;
        }
    }
}

// Three pairs at least whose mask was read and whose image layer was not: where one of their masks is 1, nothing below shows.
fn mostly_dark(s: &[u8], d: &[u8], rows: &[usize], pairs: usize, f: usize) -> bool
    requires { RowsFit s.now d.now rows.now pairs × (f ≤ pairs) × (pairs ≤ 7) }
{
    let mut count: usize = 0;
    for j in f + 1..=pairs {
        let m = line_fetch::row_at(rows, j * 2);
        let r = line_fetch::row_at(rows, j * 2 + 1);
        if (m.read != 0) & (r.read == 0) {
            count += 1;
        }
    }
    3 <= count
}

// So many pixels are tried first.
const TRIED: usize = 4 * BLOCK;

// Among them is a dark stretch, so that others are likely behind them.
fn some_dark(sel: &[u8]) -> bool
    requires { 256 ≤ length sel.now }
{
    let e = dark_end(sel, 0, TRIED);
    if STRETCH <= e {
        return true;
    }
    lit_end(sel, 0, TRIED) < TRIED
}

// It is worth the floors of all pixels from a on.
fn dark_ahead(
    sel: &mut [u8],
    bits: &mut [u8],
    s: &[u8],
    d: &[u8],
    rows: &[usize],
    pairs: usize,
    f: usize,
    a: usize,
) -> bool
    requires { RowsFit s.now d.now rows.now pairs × PlainRows rows.now pairs × Starts s.now d.now rows.now pairs a (a + 256) f × (f ≤ pairs) × (pairs ≤ 7) × (a + 256 < 65536)
        × (256 ≤ length sel.old) × (280 ≤ length bits.old) }
{
    if mostly_dark(s, d, rows, pairs, f) {
        paint_floor::put_floors(sel, bits, s, d, rows, pairs, f, a, a + TRIED);
        return some_dark(sel);
    }
    false
}

// The floors of the pixels a up to b, if they are worth it.
fn put_dark(
    sel: &mut [u8],
    bits: &mut [u8],
    s: &[u8],
    d: &[u8],
    rows: &[usize],
    pairs: usize,
    f: usize,
    a: usize,
    b: usize,
) -> bool
    requires { RowsFit s.now d.now rows.now pairs × PlainRows rows.now pairs × Starts s.now d.now rows.now pairs a b f × (f < pairs) × (pairs ≤ 7) × (a < b) × (b < 65536)
        × (b - a ≤ length sel.old) × (b - a + 24 ≤ length bits.old) }
    ensures { result ≡ true → Sure s.now d.now rows.now f a (b - a) pairs sel.new }
{
    if b - a < 2 * TRIED {
        return false;
    }
    if dark_ahead(sel, bits, s, d, rows, pairs, f, a) {
        paint_floor::put_floors(sel, bits, s, d, rows, pairs, f, a, b);
        return true;
    }
    false
}

// The pixels a up to b, pair f showing its image layer over them; `sel` is for work.
pub fn lay_lit(
    out: &mut [u8],
    sel: &mut [u8],
    row: &mut [u8],
    bits: &mut [u8],
    s: &[u8],
    d: &[u8],
    rows: &[usize],
    pairs: usize,
    f: usize,
    a: usize,
    b: usize,
    unseen: Colour,
    u: u32,
)
    requires { RowsFit s.now d.now rows.now pairs × PlainRows rows.now pairs × Starts s.now d.now rows.now pairs a b f × (f < pairs) × (pairs ≤ 7) × (a < b) × (b < 65536) × (b * 4 ≤ length out.old)
        × (b - a ≤ length sel.old) × (b - a + 24 ≤ length bits.old) × (2048 ≤ length row.old) × (octets_of u ≡ four_of unseen None) }
    ensures { Coated (decided unseen s.now d.now rows.now pairs) out.old a b out.new }
{
    let told = put_dark(sel, bits, s, d, rows, pairs, f, a, b);
    lay_between(
        out, sel, row, bits, s, d, rows, pairs, f, a, b, told, unseen, u,
    );
}
