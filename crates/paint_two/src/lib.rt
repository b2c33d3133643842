// Two layers under a mask in one pass, where what they show is of one kind all along: samples of three octets, a pixel each, or one colour. Sixteen
// pixels at a time where the mask is all 0 or all 1 there.
#![tactic(auto)]

ghost use Rattle.std.specs.Prelude.{◌≡◌, ℕ, ◌+◌, ◌-◌, ◌*◌, ◌<◌, ◌≤◌, List, length};
ghost use Rattle.std.proofs.Common.{arith};
ghost use Rattle.paint_words.specs.Words.{octets_of};
ghost use Rattle.paint_coat.specs.Coat.{Coated, over, flat, samples_by, chosen_by};
ghost use Rattle.paint_choice.specs.Choice.{bits_from};
ghost use Rattle.paint_two.specs.Two.{shown, Stepped};

use paint_blocks::BLOCK;

fn lay_four(out: &mut [u8], t: usize, d: &[u8], i: usize)
    requires { ((t + 4) * 4 ≤ length out.old) × (i + 13 ≤ length d.now) }
    ensures { Coated (over (samples_by 3 1 d.now t i)) out.old t (t + 4) out.new }
{
    let a = paint_words::seen_wide(d, i);
    let b = paint_words::seen_wide(d, i + 3);
    let c = paint_words::seen_wide(d, i + 6);
    let e = paint_words::seen_wide(d, i + 9);
    paint_words::put_four(out, t * 4, a, b, c, e);
}

fn lay_block(out: &mut [u8], t: usize, d: &[u8], i: usize)
    requires { ((t + 16) * 4 ≤ length out.old) × (i + 49 ≤ length d.now) }
    ensures { Coated (over (samples_by 3 1 d.now t i)) out.old t (t + 16) out.new }
{
    lay_four(out, t, d, i);
    lay_four(out, t + 4, d, i + 12);
    lay_four(out, t + 8, d, i + 24);
    lay_four(out, t + 12, d, i + 36);
}

// The first four last: a store that two branches end with would be made one by the compiler, and the four then no longer by one store.
fn flat_block(out: &mut [u8], t: usize, w: u32)
    requires { (t + 16) * 4 ≤ length out.old }
    ensures { Coated (over (flat (octets_of w))) out.old t (t + 16) out.new }
{
    paint_coat::lay_flat(out, t + 4, t + 16, w);
    paint_coat::lay_flat(out, t, t + 4, w);
}

// What a layer shows over a part of a row, pixel by pixel; `reach` is how many octets the first n pixels take.
pub trait Source: Copy {
    ghost shows: { Self → List ℕ → ℕ → List ℕ };

    ghost reach: { Self → ℕ → ℕ };

    fn at(self, d: &[u8], x: usize) -> u32
        requires { reach self (x + 1) ≤ length d.now }
        ensures { octets_of result ≡ shows self d.now x };

    // Sixteen pixels, the x-th first.
    fn lay(self, out: &mut [u8], t: usize, d: &[u8], x: usize)
        requires { ((t + 16) * 4 ≤ length out.old) × (reach self (x + 16) ≤ length d.now) }
        ensures { Coated (over (shown (shows self d.now) x t)) out.old t (t + 16) out.new };

    ghost grows: { (s : Self) (m n : ℕ) → m ≤ n → reach s m ≤ reach s n };
}

// Samples of three octets, a pixel each, the first at this place.
#[derive(Clone, Copy)]
pub struct Image(pub usize);

impl Source for Image {
    ghost shows = { λ s d. samples_by 3 1 d 0 s.0 };

    ghost reach = { λ s n. s.0 + n * 3 + 1 };

    fn at(self, d: &[u8], x: usize) -> u32 {
        paint_words::seen_wide(d, self.0 + x * 3)
    }

    fn lay(self, out: &mut [u8], t: usize, d: &[u8], x: usize) {
        lay_block(out, t, d, self.0 + x * 3);
    }

    ghost grows = { λ s m n h. Prim.omega arith };
}

// One colour.
#[derive(Clone, Copy)]
pub struct Flat(pub u32);

impl Source for Flat {
    ghost shows = { λ s d. flat (octets_of s.0) };

    ghost reach = { λ s n. 0 };

    fn at(self, _d: &[u8], _x: usize) -> u32 {
        self.0
    }

    fn lay(self, out: &mut [u8], t: usize, _d: &[u8], _x: usize) {
        flat_block(out, t, self.0);
    }

    ghost grows = { λ s m n h. Prim.omega arith };
}

// Pixel by pixel, from the p-th up to the q-th of those from a on. The place is worked out behind both pixels: before them, masks at random take 1.18 of
// the time.
fn mix<L: Source, U: Source>(
    out: &mut [u8],
    a: usize,
    m: &[u8],
    d: &[u8],
    low: L,
    up: U,
    p: usize,
    q: usize,
)
    requires { (p ≤ q) × ((a + q) * 4 ≤ length out.old) × (q ≤ length m.now) × (L.reach low q ≤ length d.now) × (U.reach up q ≤ length d.now) }
    ensures { Coated (chosen_by (bits_from m.now a 0) (over (shown (L.shows low d.now) 0 a)) (over (shown (U.shows up d.now) 0 a))) out.old (a + p) (a + q) out.new }
{
    for x in p..q {
        let below = low.at(d, x);
        let above = up.at(d, x);
        paint_words::put_word(out, (a + x) * 4, paint_words::either(m[x], below, above));
    }
}

// A step from the x-th on: a block, or what is mixed, or the rest.
fn step<L: Source, U: Source>(
    out: &mut [u8],
    a: usize,
    m: &[u8],
    d: &[u8],
    low: L,
    up: U,
    x: usize,
    n: usize,
) -> usize
    requires { (x < n) × ((a + n) * 4 ≤ length out.old) × (n ≤ length m.now) × (L.reach low n ≤ length d.now) × (U.reach up n ≤ length d.now) }
    ensures { Stepped (chosen_by (bits_from m.now a 0) (over (shown (L.shows low d.now) 0 a)) (over (shown (U.shows up d.now) 0 a))) a x n out.old result out.new }
{
    if n - x < BLOCK {
        mix(out, a, m, d, low, up, x, n);
        return n;
    }
    if paint_blocks::zeros(m, x) {
        low.lay(out, a + x, d, x);
        return x + BLOCK;
    }
    if paint_blocks::ones(m, x) {
        up.lay(out, a + x, d, x);
        return x + BLOCK;
    }
    let e = paint_blocks::mixed_end(m, x, n);
    mix(out, a, m, d, low, up, x, e);
    e
}

// n pixels from a on, whose mask's octets are those of m from the first on.
pub fn two_layers<L: Source, U: Source>(
    out: &mut [u8],
    a: usize,
    m: &[u8],
    d: &[u8],
    low: L,
    up: U,
    n: usize,
)
    requires { ((a + n) * 4 ≤ length out.old) × (n ≤ length m.now) × (L.reach low n ≤ length d.now) × (U.reach up n ≤ length d.now) }
    ensures { Coated (chosen_by (bits_from m.now a 0) (over (shown (L.shows low d.now) 0 a)) (over (shown (U.shows up d.now) 0 a))) out.old a (a + n) out.new }
{
    let mut x = 0;
    while x < n {
        x = step(out, a, m, d, low, up, x, n);
    }
}

// The image at i below, that at j above.
pub fn two_images(out: &mut [u8], a: usize, m: &[u8], d: &[u8], i: usize, j: usize, n: usize)
    requires { ((a + n) * 4 ≤ length out.old) × (n ≤ length m.now) × (i + n * 3 + 1 ≤ length d.now) × (j + n * 3 + 1 ≤ length d.now) }
    ensures { Coated (chosen_by (bits_from m.now a 0) (over (samples_by 3 1 d.now a i)) (over (samples_by 3 1 d.now a j))) out.old a (a + n) out.new }
{
    two_layers(out, a, m, d, Image(i), Image(j), n);
}

// The image at i below, one colour above.
pub fn image_below(out: &mut [u8], a: usize, m: &[u8], d: &[u8], i: usize, w: u32, n: usize)
    requires { ((a + n) * 4 ≤ length out.old) × (n ≤ length m.now) × (i + n * 3 + 1 ≤ length d.now) }
    ensures { Coated (chosen_by (bits_from m.now a 0) (over (samples_by 3 1 d.now a i)) (over (flat (octets_of w)))) out.old a (a + n) out.new }
{
    two_layers(out, a, m, d, Image(i), Flat(w), n);
}

// One colour below, the image at j above.
pub fn image_above(out: &mut [u8], a: usize, m: &[u8], w: u32, d: &[u8], j: usize, n: usize)
    requires { ((a + n) * 4 ≤ length out.old) × (n ≤ length m.now) × (j + n * 3 + 1 ≤ length d.now) }
    ensures { Coated (chosen_by (bits_from m.now a 0) (over (flat (octets_of w))) (over (samples_by 3 1 d.now a j))) out.old a (a + n) out.new }
{
    two_layers(out, a, m, d, Flat(w), Image(j), n);
}
