// Pixels whose floors change all the time, gathered: a table tells for each floor where its samples are, and each pixel is fetched from its floor's
// place. So many floors cost what two do. The table has twelve pixels' places: after twelve, every ratio of an accepted sheet starts a sample anew, and
// all places go on by one step.
#![tactic(auto)]

ghost use Rattle.std.specs.Prelude.{◌≡◌, ◌+◌, ◌-◌, ◌*◌, ◌%◌, ◌<◌, ◌≤◌, length};
ghost use Rattle.paint_words.specs.Words.{octets_of};
ghost use Rattle.paint_coat.specs.Coat.{Coated, over, four_in};
ghost use Rattle.paint_gather.specs.Gather.{entry, place_in, gathered, next_at, Reach, Reaches, Running};

use paint_coat::{Coloured, Grey, Sample};

// How many pixels' places the table has, and how many floors.
pub const PIXELS: usize = 12;

pub const FLOORS: usize = 16;

pub const TABLE: usize = PIXELS * FLOORS;

// The sample of floor c at the table's pixel j.
fn sample<S: Sample>(r: &[u8], t: &[usize], j: usize, c: u8) -> u32
    requires { (192 ≤ length t.now) × (j < 12) × (c < 16) × (entry t.now j c + 4 ≤ length r.now) }
    ensures { octets_of result ≡ four_in S.SIZE r.now (entry t.now j c) }
{
    S::load(r, t[j * FLOORS + usize::from(c)])
}

// The sample of floor c at pixel i of the part.
fn sample_at<S: Sample>(d: &[u8], t: &[usize], i: usize, c: u8, step: usize) -> u32
    requires { (192 ≤ length t.now) × (c < 16) × (place_in t.now step i c + 4 ≤ length d.now) }
    ensures { octets_of result ≡ four_in S.SIZE d.now (place_in t.now step i c) }
{
    let p = t[i % PIXELS * FLOORS + usize::from(c)];
    S::load(d, p + i / PIXELS * step)
}

// Four pixels from y on, the floors from p on and the table's pixels from j on. All are fetched before one is put: so they are put as one.
fn gather_four<S: Sample>(
    out: &mut [u8],
    y: usize,
    sel: &[u8],
    p: usize,
    t: &[usize],
    j: usize,
    r: &[u8],
)
    requires { Reach 4 sel.now p t.now j r.now × ((y + 4) * 4 ≤ length out.old) }
    ensures { Coated (over (next_at S.SIZE sel.now p t.now j r.now y)) out.old y (y + 4) out.new }
{
    let a = sample::<S>(r, t, j, sel[p]);
    let b = sample::<S>(r, t, j + 1, sel[p + 1]);
    let c = sample::<S>(r, t, j + 2, sel[p + 2]);
    let e = sample::<S>(r, t, j + 3, sel[p + 3]);
    paint_words::put_word(out, y * 4, a);
    paint_words::put_word(out, (y + 1) * 4, b);
    paint_words::put_word(out, (y + 2) * 4, c);
    paint_words::put_word(out, (y + 3) * 4, e);
}

// All pixels of the table, from y on, the floors from p on.
fn gather_twelve<S: Sample>(out: &mut [u8], y: usize, sel: &[u8], p: usize, t: &[usize], r: &[u8])
    requires { Reach 12 sel.now p t.now 0 r.now × ((y + 12) * 4 ≤ length out.old) }
    ensures { Coated (over (next_at S.SIZE sel.now p t.now 0 r.now y)) out.old y (y + 12) out.new }
{
    gather_four::<S>(out, y, sel, p, t, 0, r);
    gather_four::<S>(out, y + 4, sel, p + 4, t, 4, r);
    gather_four::<S>(out, y + 8, sel, p + 8, t, 8, r);
}

// The pixels x up to e, the floors starting at pixel a, one by one.
fn gather_few<S: Sample>(
    out: &mut [u8],
    a: usize,
    sel: &[u8],
    t: &[usize],
    d: &[u8],
    x: usize,
    e: usize,
    step: usize,
)
    requires { Reaches sel.now t.now d.now step (x - a) (e - a) × (a ≤ x) × (x ≤ e) × (e * 4 ≤ length out.old) }
    ensures { Coated (over (gathered S.SIZE sel.now t.now d.now step a)) out.old x e out.new }
{
    for y in x..e {
        let w = sample_at::<S>(d, t, y - a, sel[y - a], step);
        paint_words::put_word(out, y * 4, w);
    }
}

// Twelve by twelve, as far as whole twelves go: it answers the pixel behind them.
fn gather_run<S: Sample>(
    out: &mut [u8],
    a: usize,
    sel: &[u8],
    t: &[usize],
    d: &[u8],
    x: usize,
    e: usize,
    step: usize,
) -> usize
    requires { Reaches sel.now t.now d.now step (x - a) (e - a) × (a ≤ x) × (x ≤ e) × (e * 4 ≤ length out.old) × ((x - a) % 12 ≡ 0) × (e < 65536) × (step ≤ 36) }
    ensures { Running S.SIZE sel.now t.now d.now step a x e out.old result out.new }
{
    let n = (e - a) / PIXELS;
    for q in (x - a) / PIXELS..n {
        let p = q * PIXELS;
        gather_twelve::<S>(out, a + p, sel, p, t, &d[q * step..]);
    }
    a + n * PIXELS
}

// The next pixel whose place from pixel a on is a multiple of twelve, or e.
fn twelfth(a: usize, x: usize, e: usize) -> usize
    requires { (a ≤ x) × (x ≤ e) × (e < 65536) }
    ensures { (x ≤ result) × (result ≤ e) × (result < e → (result - a) % 12 ≡ 0) }
{
    let y = a + (x - a).div_ceil(PIXELS) * PIXELS;
    y.min(e)
}

// From a multiple of twelve on.
fn gather_rest<S: Sample>(
    out: &mut [u8],
    a: usize,
    sel: &[u8],
    t: &[usize],
    d: &[u8],
    x: usize,
    e: usize,
    step: usize,
)
    requires { Reaches sel.now t.now d.now step (x - a) (e - a) × (a ≤ x) × (x ≤ e) × (e * 4 ≤ length out.old) × ((x - a) % 12 ≡ 0) × (e < 65536) × (step ≤ 36) }
    ensures { Coated (over (gathered S.SIZE sel.now t.now d.now step a)) out.old x e out.new }
{
    let y = gather_run::<S>(out, a, sel, t, d, x, e, step);
    gather_few::<S>(out, a, sel, t, d, y, e, step);
}

// The kind is known throughout, so that no pixel asks for it.
fn gather_kind<S: Sample>(
    out: &mut [u8],
    a: usize,
    sel: &[u8],
    t: &[usize],
    d: &[u8],
    x: usize,
    e: usize,
    step: usize,
)
    requires { Reaches sel.now t.now d.now step (x - a) (e - a) × (a ≤ x) × (x ≤ e) × (e < 65536) × (step ≤ 36) × (e * 4 ≤ length out.old) }
    ensures { Coated (over (gathered S.SIZE sel.now t.now d.now step a)) out.old x e out.new }
{
    let y = twelfth(a, x, e);
    gather_few::<S>(out, a, sel, t, d, x, y, step);
    if y < e {
        gather_rest::<S>(out, a, sel, t, d, y, e, step);
    }
}

// The pixels x up to e, the floors and the table starting at pixel a.
pub fn gather(
    out: &mut [u8],
    a: usize,
    sel: &[u8],
    t: &[usize],
    d: &[u8],
    x: usize,
    e: usize,
    step: usize,
    each: usize,
)
    requires { Reaches sel.now t.now d.now step (x - a) (e - a) × (a ≤ x) × (x ≤ e) × (e < 65536) × (step ≤ 36) × (e * 4 ≤ length out.old) }
    ensures { Coated (over (gathered each sel.now t.now d.now step a)) out.old x e out.new }
{
    if each == 3 {
        gather_kind::<Coloured>(out, a, sel, t, d, x, e, step);
    } else {
        gather_kind::<Grey>(out, a, sel, t, d, x, e, step);
    }
}
