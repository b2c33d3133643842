// The loops over pixels. A pixel is one number of four octets, so that the compiler does four or more at a time; how many pixels a sample has is a
// constant wherever a loop is called with one, and the compiler makes a loop for each.
#![tactic(auto)]

ghost use Rattle.std.specs.Prelude.{◌≡◌, ◌≢◌, ℕ, ◌+◌, ◌-◌, ◌*◌, ◌<◌, ◌≤◌, length};
ghost use Rattle.std.proofs.Common.{rules};
ghost use Rattle.paint_words.specs.Words.{octets_of};
ghost use Rattle.paint_coat.specs.Coat.{Coated, over, flat, four_in, samples_by};

pub fn lay_flat(out: &mut [u8], a: usize, b: usize, w: u32)
    requires { (a ≤ b) × (b * 4 ≤ length out.old) }
    ensures { Coated (over (flat (octets_of w))) out.old a b out.new }
{
    for x in a..b {
        paint_words::put_word(out, x * 4, w);
    }
}

// A kind of sample, as a seen pixel: by one load where what that reads is there, which is twice as fast, and else octet by octet.
pub trait Sample {
    ghost SIZE: { ℕ };

    ghost WIDE: { ℕ };

    const SIZE: usize;

    // How many octets the load reads.
    const WIDE: usize;

    fn load(s: &[u8], i: usize) -> u32
        requires { i + WIDE ≤ length s.now }
        ensures { octets_of result ≡ four_in SIZE s.now i };

    fn fetch(s: &[u8], i: usize) -> u32
        requires { i + SIZE ≤ length s.now }
        ensures { octets_of result ≡ four_in SIZE s.now i };

    ghost least: { SIZE ≤ WIDE };

    ghost most: { WIDE ≤ SIZE + SIZE };

    ghost word: { WIDE ≤ 4 };
}

pub struct Coloured;

impl Sample for Coloured {
    ghost SIZE = { 3 };

    ghost WIDE = { 4 };

    const SIZE: usize = 3;

    const WIDE: usize = 4;

    #[tactic(auto, unfolding(crate::specs::Coat::four_in))]
    fn load(s: &[u8], i: usize) -> u32 {
        paint_words::seen_wide(s, i)
    }

    #[tactic(auto, unfolding(crate::specs::Coat::four_in))]
    fn fetch(s: &[u8], i: usize) -> u32 {
        paint_words::seen(s, i)
    }

    ghost least = { Prim.search rules };

    ghost most = { Prim.search rules };

    ghost word = { Prim.search rules };
}

// Lightness alone.
pub struct Grey;

impl Sample for Grey {
    ghost SIZE = { 1 };

    ghost WIDE = { 1 };

    const SIZE: usize = 1;

    const WIDE: usize = 1;

    #[tactic(auto, unfolding(crate::specs::Coat::four_in))]
    fn load(s: &[u8], i: usize) -> u32 {
        paint_words::grey(s, i)
    }

    #[tactic(auto, unfolding(crate::specs::Coat::four_in))]
    fn fetch(s: &[u8], i: usize) -> u32 {
        paint_words::grey(s, i)
    }

    ghost least = { Prim.search rules };

    ghost most = { Prim.search rules };

    ghost word = { Prim.search rules };
}

// How many of n samples have behind them what a load reads beyond: all but the last at least.
fn loads<S: Sample>(len: usize, i: usize, n: usize) -> usize
    requires { (0 < n) × (i + n * S.SIZE ≤ len) }
    ensures { (result ≤ n) × (n ≤ result + 1) × (i + result * S.SIZE + (S.WIDE - S.SIZE) ≤ len) }
{
    if S::WIDE - S::SIZE <= len - (i + n * S::SIZE) {
        n
    } else {
        n - 1
    }
}

// n samples of a kind, k pixels each.
fn lay_by<S: Sample>(out: &mut [u8], s: &[u8], t: usize, n: usize, i: usize, k: usize)
    requires { (0 < k) × (0 < n) × ((t + n * k) * 4 ≤ length out.old) × (i + n * S.SIZE ≤ length s.now) }
    ensures { Coated (over (samples_by S.SIZE k s.now t i)) out.old t (t + n * k) out.new }
{
    let m = loads::<S>(s.len(), i, n);
    for q in 0..m {
        let p = t + q * k;
        let v = S::load(s, i + q * S::SIZE);
        lay_flat(out, p, p + k, v);
    }
    if m < n {
        let p = t + m * k;
        let v = S::fetch(s, i + m * S::SIZE);
        lay_flat(out, p, p + k, v);
    }
}

// The same; the ratios of accepted sheets are constants.
fn lay_kind<S: Sample>(out: &mut [u8], s: &[u8], t: usize, n: usize, i: usize, k: usize)
    requires { (0 < k) × (0 < n) × ((t + n * k) * 4 ≤ length out.old) × (i + n * S.SIZE ≤ length s.now) }
    ensures { Coated (over (samples_by S.SIZE k s.now t i)) out.old t (t + n * k) out.new }
{
    match k {
        1 => lay_by::<S>(out, s, t, n, i, 1),
        2 => lay_by::<S>(out, s, t, n, i, 2),
        3 => lay_by::<S>(out, s, t, n, i, 3),
        4 => lay_by::<S>(out, s, t, n, i, 4),
        6 => lay_by::<S>(out, s, t, n, i, 6),
        12 => lay_by::<S>(out, s, t, n, i, 12),
        _ => lay_by::<S>(out, s, t, n, i, k),
    }
}

// n samples of `each` octets, k pixels each, from pixel t on.
pub fn lay_samples(out: &mut [u8], s: &[u8], t: usize, n: usize, i: usize, each: usize, k: usize)
    requires { (0 < k) × (0 < n) × ((t + n * k) * 4 ≤ length out.old) × (each ≢ 3 → each ≡ 1) × (i + n * each ≤ length s.now) }
    ensures { Coated (over (samples_by each k s.now t i)) out.old t (t + n * k) out.new }
{
    if each == 3 {
        lay_kind::<Coloured>(out, s, t, n, i, k);
    } else {
        lay_kind::<Grey>(out, s, t, n, i, k);
    }
}
