// An image layer over a part of a row of pixels: its base colour before its area and behind it, the unseen pixel where it was not read, and in its area
// a part of a sample, whole ones, and a part of one.
#![tactic(auto)]

ghost use Rattle.std.specs.Prelude.{◌≡◌, ◌≢◌, ◌+◌, ◌-◌, ◌*◌, ◌<◌, ◌≤◌, length};
ghost use Rattle.line_fetch.specs.Rows.{Turns, ImageFits};
ghost use Rattle.paint_words.specs.Words.{octets_of};
ghost use Rattle.paint_coat.specs.Coat.{Coated, over, four_in};
ghost use Rattle.paint_image.specs.Image.{image_from, area_from, moved, Plain, SampleAt, PartFits, OneFits, WholeFits, Within, Between, Beside};

use line_fetch::Row;
use pixel_rules::MainPos;

// Brought between two places: the clamp, told point by point.
pub fn within(x: usize, a: usize, b: usize) -> usize
    requires { a ≤ b }
    ensures { Within x a b result }
{
    x.clamp(a, b)
}

// The sample of a pixel.
pub fn sample_of(r: Row, x: usize) -> usize
    requires { Turns r × (r.from.0 ≤ x) × (x < 65536) }
    ensures { SampleAt r x result }
{
    let p = line_sample::scale_pos(r.ratio, r.factor, r.from, MainPos(x));
    p.0
}

fn sample_word(d: &[u8], p: usize, each: usize) -> u32
    requires { (each ≢ 3 → each ≡ 1) × (p + each ≤ length d.now) }
    ensures { octets_of result ≡ four_in each d.now p }
{
    if each == 3 {
        paint_words::seen(d, p)
    } else {
        paint_words::grey(d, p)
    }
}

// Pixels of sample i.
fn lay_one(out: &mut [u8], t: usize, d: &[u8], r: Row, i: usize, a: usize, b: usize)
    requires { OneFits d.now r i a b × ((t + (b - a)) * 4 ≤ length out.old) }
    ensures { Coated (over (moved t a (area_from d.now r))) out.old t (t + (b - a)) out.new }
{
    let w = sample_word(d, r.at + i * r.read, r.read);
    paint_coat::lay_flat(out, t, t + (b - a), w);
}

// n samples from sample q on, which starts at pixel f.
fn lay_whole(out: &mut [u8], t: usize, d: &[u8], r: Row, q: usize, n: usize, f: usize)
    requires { WholeFits d.now r q n f × ((t + n * r.ratio) * 4 ≤ length out.old) }
    ensures { Coated (over (moved t f (area_from d.now r))) out.old t (t + n * r.ratio) out.new }
{
    if n == 0 {
        return;
    }
    paint_coat::lay_samples(out, d, t, n, r.at + q * r.read, r.read, r.ratio);
}

// From pixel f, where sample q starts, up to b.
fn lay_from(out: &mut [u8], t: usize, d: &[u8], r: Row, q: usize, f: usize, b: usize)
    requires { PartFits d.now r f b × (f ≤ b) × (f ≡ r.from.0 + q * r.ratio) × ((t + (b - f)) * 4 ≤ length out.old) }
    ensures { Coated (over (moved t f (area_from d.now r))) out.old t (t + (b - f)) out.new }
{
    let j = sample_of(r, b);
    let e = r.from.0 + j * r.ratio;
    lay_whole(out, t, d, r, q, j - q, f);
    if e < b {
        lay_one(out, t + (e - f), d, r, j, e, b);
    }
}

// The part of the area from pixel a up to b, at the pixels from t on.
fn lay_area(out: &mut [u8], t: usize, d: &[u8], r: Row, a: usize, b: usize)
    requires { PartFits d.now r a b × (a < b) × ((t + (b - a)) * 4 ≤ length out.old) }
    ensures { Coated (over (moved t a (area_from d.now r))) out.old t (t + (b - a)) out.new }
{
    let i = sample_of(r, a);
    let s = r.from.0 + i * r.ratio;
    if s == a {
        lay_from(out, t, d, r, i, a, b);
        return;
    }
    let f = s + r.ratio;
    if b <= f {
        lay_one(out, t, d, r, i, a, b);
        return;
    }
    lay_one(out, t, d, r, i, a, f);
    lay_from(out, t + (f - a), d, r, i + 1, f, b);
}

// The base colour, before the area or behind it.
fn lay_base(out: &mut [u8], t: usize, s: &[u8], d: &[u8], r: Row, a: usize, b: usize, u: u32)
    requires { ImageFits s.now d.now r × Beside r a b × (a ≤ b) × ((t + (b - a)) * 4 ≤ length out.old) }
    ensures { Coated (over (moved t a (image_from (octets_of u) s.now d.now r))) out.old t (t + (b - a)) out.new }
{
    if b <= a {
        return;
    }
    let w = paint_words::seen(s, r.other);
    paint_coat::lay_flat(out, t, t + (b - a), w);
}

// The area, read or not.
fn lay_inside(out: &mut [u8], t: usize, s: &[u8], d: &[u8], r: Row, a: usize, b: usize, u: u32)
    requires { ImageFits s.now d.now r × Plain r × Between r a b × (b < 65536) × (a ≤ b) × ((t + (b - a)) * 4 ≤ length out.old) }
    ensures { Coated (over (moved t a (image_from (octets_of u) s.now d.now r))) out.old t (t + (b - a)) out.new }
{
    if b <= a {
        return;
    }
    if r.read == 0 {
        paint_coat::lay_flat(out, t, t + (b - a), u);
        return;
    }
    lay_area(out, t, d, r, a, b);
}

// What the layer gives at the pixels a up to b, at the pixels of the row from t on; u is the unseen pixel.
pub fn lay_image(out: &mut [u8], t: usize, s: &[u8], d: &[u8], r: Row, a: usize, b: usize, u: u32)
    requires { ImageFits s.now d.now r × Plain r × (b < 65536) × (a ≤ b) × ((t + (b - a)) * 4 ≤ length out.old) }
    ensures { Coated (over (moved t a (image_from (octets_of u) s.now d.now r))) out.old t (t + (b - a)) out.new }
{
    let f = within(r.from.0, a, b);
    let g = within(r.to.0, f, b);
    lay_base(out, t, s, d, r, a, f, u);
    lay_inside(out, t + (f - a), s, d, r, f, g, u);
    lay_base(out, t + (g - a), s, d, r, g, b, u);
}
