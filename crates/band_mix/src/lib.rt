// Lines of a band that differ by the bits of one mask alone: two are painted, one as if the mask were 0 all along and one as if it were 1, and all are
// made of these two. Places are pixels of the band.
#![tactic(auto)]

ghost use Rattle.std.specs.Prelude.{◌+◌, ◌-◌, ◌*◌, ◌<◌, ◌≤◌, length};
ghost use Rattle.paint_coat.specs.Coat.{Coated, over};
ghost use Rattle.band_mix.specs.Mix.{mixed_from, copied_from, line_from, Stepped, TwoMixed, TwoLaid, TwoPart, TwoStepped, Source};

use paint_blocks::BLOCK;

// The n pixels from a on, at those from t on.
pub fn copy_line(out: &mut [u8], a: usize, t: usize, n: usize)
    requires { (a + n ≤ t) × ((t + n) * 4 ≤ length out.old) }
    ensures { Coated (over (copied_from out.old a t)) out.old t (t + n) out.new }
{
    for x in 0..n {
        let w = paint_words::word(out, (a + x) * 4);
        paint_words::put_word(out, (t + x) * 4, w);
    }
}

// Pixel by pixel, from the p-th up to the q-th.
fn mix_few(out: &mut [u8], a: usize, b: usize, t: usize, m: &[u8], p: usize, q: usize)
    requires { (p ≤ q) × (a + q ≤ t) × (b + q ≤ t) × ((t + q) * 4 ≤ length out.old) × (q ≤ length m.now) }
    ensures { Coated (over (mixed_from out.old m.now a b t)) out.old (t + p) (t + q) out.new }
{
    for x in p..q {
        let low = paint_words::word(out, (a + x) * 4);
        let up = paint_words::word(out, (b + x) * 4);
        paint_words::put_word(out, (t + x) * 4, paint_words::either(m[x], low, up));
    }
}

fn copy_four(out: &mut [u8], t: usize, i: usize)
    requires { (i ≤ t) × ((t + 4) * 4 ≤ length out.old) }
    ensures { Coated (over (copied_from out.old i t)) out.old t (t + 4) out.new }
{
    let a = paint_words::word(out, i * 4);
    let b = paint_words::word(out, i * 4 + 4);
    let c = paint_words::word(out, i * 4 + 8);
    let e = paint_words::word(out, i * 4 + 12);
    paint_words::put_four(out, t * 4, a, b, c, e);
}

fn copy_block(out: &mut [u8], t: usize, i: usize)
    requires { (i + 16 ≤ t) × ((t + 16) * 4 ≤ length out.old) }
    ensures { Coated (over (copied_from out.old i t)) out.old t (t + 16) out.new }
{
    copy_four(out, t, i);
    copy_four(out, t + 4, i + 4);
    copy_four(out, t + 8, i + 8);
    copy_four(out, t + 12, i + 12);
}

// From the x-th on: a block that is all of one line, or what is mixed, or the rest.
fn mix_step(out: &mut [u8], a: usize, b: usize, t: usize, m: &[u8], x: usize, n: usize) -> usize
    requires { (x < n) × (a + n ≤ t) × (b + n ≤ t) × ((t + n) * 4 ≤ length out.old) × (n ≤ length m.now) }
    ensures { Stepped (mixed_from out.old m.now a b t) t x n out.old result out.new }
{
    if n - x < BLOCK {
        mix_few(out, a, b, t, m, x, n);
        return n;
    }
    if paint_blocks::uniform(m, x) {
        let i = paint_words::pick(m[x], a, b);
        copy_block(out, t + x, i + x);
        return x + BLOCK;
    }
    let e = paint_blocks::mixed_end(m, x, n);
    mix_few(out, a, b, t, m, x, e);
    e
}

// The n pixels from t on, from those of the lines at a and at b.
pub fn mix_line(out: &mut [u8], a: usize, b: usize, t: usize, m: &[u8], n: usize)
    requires { (a + n ≤ t) × (b + n ≤ t) × ((t + n) * 4 ≤ length out.old) × (n ≤ length m.now) }
    ensures { Coated (over (mixed_from out.old m.now a b t)) out.old t (t + n) out.new }
{
    let mut x = 0;
    while x < n {
        x = mix_step(out, a, b, t, m, x, n);
    }
}

// ---- the two lines themselves

fn two_few(out: &mut [u8], a: usize, b: usize, m: &[u8], k: &[u8], p: usize, q: usize)
    requires { (p ≤ q) × (a + q ≤ b) × ((b + q) * 4 ≤ length out.old) × (q ≤ length m.now) × (q ≤ length k.now) }
    ensures { TwoPart m.now k.now a b p q out.old out.new }
{
    for x in p..q {
        let low = paint_words::word(out, (a + x) * 4);
        let up = paint_words::word(out, (b + x) * 4);
        paint_words::put_word(out, (a + x) * 4, paint_words::either(m[x], low, up));
        paint_words::put_word(out, (b + x) * 4, paint_words::either(k[x], low, up));
    }
}

// Four pixels from i on at x, and four from j on at y: all are fetched before one is put.
fn both_four(out: &mut [u8], x: usize, y: usize, i: usize, j: usize)
    requires { (x + 4 ≤ y) × ((y + 4) * 4 ≤ length out.old) × (i ≤ y) × (j ≤ y) }
    ensures { TwoLaid (line_from out.old i) (line_from out.old j) x y 0 4 out.old out.new }
{
    let a = paint_words::word(out, i * 4);
    let b = paint_words::word(out, i * 4 + 4);
    let c = paint_words::word(out, i * 4 + 8);
    let e = paint_words::word(out, i * 4 + 12);
    let f = paint_words::word(out, j * 4);
    let g = paint_words::word(out, j * 4 + 4);
    let h = paint_words::word(out, j * 4 + 8);
    let k = paint_words::word(out, j * 4 + 12);
    paint_words::put_four(out, x * 4, a, b, c, e);
    paint_words::put_four(out, y * 4, f, g, h, k);
}

fn both_block(out: &mut [u8], x: usize, y: usize, i: usize, j: usize)
    requires { (x + 16 ≤ y) × ((y + 16) * 4 ≤ length out.old) × Source x y i × Source x y j }
    ensures { TwoLaid (line_from out.old i) (line_from out.old j) x y 0 16 out.old out.new }
{
    both_four(out, x, y, i, j);
    both_four(out, x + 4, y + 4, i + 4, j + 4);
    both_four(out, x + 8, y + 8, i + 8, j + 8);
    both_four(out, x + 12, y + 12, i + 12, j + 12);
}

// As `paint_blocks::mixed_end`, of two masks.
fn two_end(m: &[u8], k: &[u8], x: usize, n: usize) -> usize
    requires { (x + 16 ≤ n) × (n ≤ length m.now) × (n ≤ length k.now) }
    ensures { (x < result) × (result ≤ n) }
{
    let mut e = x + BLOCK;
    let mut step = BLOCK;
    while step <= n - e {
        if paint_blocks::uniform(m, e) & paint_blocks::uniform(k, e) {
            return e;
        }
        e += step;
        step = 4 * BLOCK;
    }
    e
}

fn two_step(out: &mut [u8], a: usize, b: usize, m: &[u8], k: &[u8], x: usize, n: usize) -> usize
    requires { (x < n) × (a + n ≤ b) × ((b + n) * 4 ≤ length out.old) × (n ≤ length m.now) × (n ≤ length k.now) }
    ensures { TwoStepped m.now k.now a b x n out.old result out.new }
{
    if n - x < BLOCK {
        two_few(out, a, b, m, k, x, n);
        return n;
    }
    if paint_blocks::uniform(m, x) & paint_blocks::uniform(k, x) {
        let i = paint_words::pick(m[x], a, b);
        let j = paint_words::pick(k[x], a, b);
        both_block(out, a + x, b + x, i + x, j + x);
        return x + BLOCK;
    }
    let e = two_end(m, k, x, n);
    two_few(out, a, b, m, k, x, e);
    e
}

// The n pixels from a on by the mask m, and those from b on by the mask k.
pub fn mix_two(out: &mut [u8], a: usize, b: usize, m: &[u8], k: &[u8], n: usize)
    requires { (a + n ≤ b) × ((b + n) * 4 ≤ length out.old) × (n ≤ length m.now) × (n ≤ length k.now) }
    ensures { TwoMixed m.now k.now a b n out.old out.new }
{
    let mut x = 0;
    while x < n {
        x = two_step(out, a, b, m, k, x, n);
    }
}
