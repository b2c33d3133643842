// The table of a part of a row: where each floor's samples are, for twelve pixels from the part's first on.
#![tactic(auto)]

ghost use Rattle.std.specs.Prelude.{◌≡◌, ◌≢◌, true, ◌+◌, ◌*◌, ◌/◌, ◌%◌, ◌<◌, ◌≤◌, length};
ghost use Rattle.line_fetch.specs.Rows.{ImageFits};
ghost use Rattle.line_pixel.specs.Rows.{RowsFit};
ghost use Rattle.paint_rules.specs.Floor.{dark};
ghost use Rattle.paint_table.specs.Table.{Ready, Lined, Placed, FirstReady, Column, Tabled};

use line_fetch::Row;
use paint_floor::DARK;
use paint_gather::{FLOORS, PIXELS};

// The layer has a sample of so many octets at each pixel from a up to b, k pixels each, and four octets are there from the last one's place on: a
// coloured one is fetched with the octet behind it.
fn ready(s: &[u8], d: &[u8], r: Row, each: usize, k: usize, a: usize, b: usize) -> bool
    requires { ImageFits s.now d.now r × (a < b) × (b < 65536) × (1 ≤ each) }
    ensures { result ≡ true → Ready each d.now r k a b }
{
    if r.read != each {
        return false;
    }
    if r.ratio != k {
        return false;
    }
    if a < r.from.0 {
        return false;
    }
    if r.to.0 < b {
        return false;
    }
    let i = paint_image::sample_of(r, b - 1);
    3 < d.len() - (r.at + i * each)
}

// The places of the row's samples, for floor c.
fn put_places(
    t: &mut [usize],
    d: &[u8],
    c: usize,
    r: Row,
    each: usize,
    k: usize,
    a: usize,
    b: usize,
)
    requires { Ready each d.now r k a b × (a + 12 ≤ b) × (b < 65536) × (c < 16) × (192 ≤ length t.old) }
    ensures { Placed each t.old c r a t.new }
{
    for j in 0..PIXELS {
        let i = paint_image::sample_of(r, a + j);
        t[j * FLOORS + c] = r.at + i * each;
    }
}

// The lowest floor from f on whose layer is ready, of a ratio that divides twelve, or one more than there are.
fn first_ready(
    s: &[u8],
    d: &[u8],
    rows: &[usize],
    pairs: usize,
    f: usize,
    each: usize,
    a: usize,
    b: usize,
) -> usize
    requires { RowsFit s.now d.now rows.now pairs × (pairs ≤ 7) × (f ≤ pairs + 1) × (a < b) × (b < 65536) × (1 ≤ each) }
    ensures { FirstReady each d.now rows.now pairs f a b result }
{
    for c in f..=pairs {
        let r = line_fetch::row_at(rows, c * 2 + 1);
        if 12 % r.ratio == 0 {
            if ready(s, d, r, each, r.ratio, a, b) {
                return c;
            }
        }
    }
    pairs + 1
}

// Floor c: its own places if its layer is ready, and else those of the first, which are painted over later.
fn put_column(
    t: &mut [usize],
    lit: &mut [u8],
    s: &[u8],
    d: &[u8],
    rows: &[usize],
    pairs: usize,
    first: Row,
    each: usize,
    c: usize,
    a: usize,
    b: usize,
)
    requires { RowsFit s.now d.now rows.now pairs × (pairs ≤ 7) × (c ≤ pairs) × Ready each d.now first first.ratio a b × (a + 12 ≤ b) × (b < 65536) × (192 ≤ length t.old)
        × (16 ≤ length lit.old) × (1 ≤ each) }
    ensures { Column each d.now rows.now first c a b t.old lit.old t.new lit.new }
{
    let r = line_fetch::row_at(rows, c * 2 + 1);
    if ready(s, d, r, each, first.ratio, a, b) {
        put_places(t, d, c, r, each, first.ratio, a, b);
        lit[c] = 1;
        return;
    }
    put_places(t, d, c, first, each, first.ratio, a, b);
    lit[c] = 0;
}

// The columns of all floors from f on, and of the dark; layer g's row is ready.
fn put_table(
    t: &mut [usize],
    lit: &mut [u8],
    s: &[u8],
    d: &[u8],
    rows: &[usize],
    pairs: usize,
    f: usize,
    first: Row,
    each: usize,
    a: usize,
    b: usize,
)
    requires { RowsFit s.now d.now rows.now pairs × (pairs ≤ 7) × (f ≤ pairs) × Ready each d.now first first.ratio a b × (12 % first.ratio ≡ 0) × (a + 12 ≤ b) × (b < 65536)
        × (192 ≤ length t.old) × (16 ≤ length lit.old) × (1 ≤ each) × (each ≤ 3) }
    ensures { Tabled each d.now rows.now t.new lit.new pairs f a b (12 / first.ratio * each) }
{
    put_places(t, d, DARK as usize, first, each, first.ratio, a, b);
    put_columns(t, lit, s, d, rows, pairs, f, first, each, a, b);
}

fn put_columns(
    t: &mut [usize],
    lit: &mut [u8],
    s: &[u8],
    d: &[u8],
    rows: &[usize],
    pairs: usize,
    f: usize,
    first: Row,
    each: usize,
    a: usize,
    b: usize,
)
    requires { RowsFit s.now d.now rows.now pairs × (pairs ≤ 7) × (f ≤ pairs) × Ready each d.now first first.ratio a b × (12 % first.ratio ≡ 0) × (a + 12 ≤ b) × (b < 65536)
        × (192 ≤ length t.old) × (16 ≤ length lit.old) × Lined each t.old dark first a × (1 ≤ each) × (each ≤ 3) }
    ensures { Tabled each d.now rows.now t.new lit.new pairs f a b (12 / first.ratio * each) }
{
    for c in f..=pairs {
        put_column(t, lit, s, d, rows, pairs, first, each, c, a, b);
    }
}

// How many octets the samples have that the table is made of: three, unless no layer from floor f on has so many.
pub fn sample_size(s: &[u8], d: &[u8], rows: &[usize], pairs: usize, f: usize) -> usize
    requires { RowsFit s.now d.now rows.now pairs × (pairs ≤ 7) }
    ensures { (1 ≤ result) × (result ≤ 3) }
{
    for c in f..=pairs {
        let r = line_fetch::row_at(rows, c * 2 + 1);
        if r.read == 3 {
            return 3;
        }
    }
    1
}

// The table, if two floors at least are ready; it answers how far all places go on after twelve pixels, or 0: no table.
pub fn make_table(
    t: &mut [usize],
    lit: &mut [u8],
    s: &[u8],
    d: &[u8],
    rows: &[usize],
    pairs: usize,
    f: usize,
    each: usize,
    a: usize,
    b: usize,
) -> usize
    requires { RowsFit s.now d.now rows.now pairs × (pairs ≤ 7) × (f ≤ pairs) × (a ≤ b) × (b < 65536) × (192 ≤ length t.old) × (16 ≤ length lit.old) × (1 ≤ each) × (each ≤ 3) }
    ensures { result ≢ 0 → Tabled each d.now rows.now t.new lit.new pairs f a b result }
{
    if b - a < PIXELS {
        return 0;
    }
    let g = first_ready(s, d, rows, pairs, f, each, a, b);
    if pairs <= g {
        return 0;
    }
    let h = first_ready(s, d, rows, pairs, g + 1, each, a, b);
    if pairs < h {
        return 0;
    }
    let first = line_fetch::row_at(rows, g * 2 + 1);
    put_table(t, lit, s, d, rows, pairs, f, first, each, a, b);
    12 / first.ratio * each
}
