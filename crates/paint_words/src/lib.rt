// Four octets as one number. The compiler joins the four loads, and the four stores, of one number into one: so a pixel is read, compared and written
// whole, and loops over pixels go four or more at a time.
#![tactic(auto)]

ghost use Rattle.std.specs.Prelude.{◌≡◌, cond, [], ◌∷◌, ◌+◌, ◌*◌, ◌<◌, ◌≤◌, length, eqb};
ghost use Rattle.octets.specs.Octets.{put_at};
ghost use Rattle.paint_words.specs.Words.{octets_of, four_from, seen_from, grey_from};

// A colour and a mark. The sum is written out: `from_le_bytes` made a line of three layers take 1.07 of the time.
pub fn word_of(a: u8, b: u8, c: u8, m: u8) -> u32
    ensures { octets_of result ≡ a ∷ b ∷ c ∷ m ∷ [] }
{
    u32::from(a) + u32::from(b) * 256 + u32::from(c) * 65536 + u32::from(m) * 16777216
}

pub fn word(s: &[u8], i: usize) -> u32
    requires { i + 4 ≤ length s.now }
    ensures { octets_of result ≡ four_from s.now i }
{
    word_of(s[i], s[i + 1], s[i + 2], s[i + 3])
}

// A sample of three octets, as a seen pixel.
pub fn seen(s: &[u8], i: usize) -> u32
    requires { i + 3 ≤ length s.now }
    ensures { octets_of result ≡ seen_from s.now i }
{
    word_of(s[i], s[i + 1], s[i + 2], 1)
}

// The same where another octet follows: one load, and twice as fast.
pub fn seen_wide(s: &[u8], i: usize) -> u32
    requires { i + 4 ≤ length s.now }
    ensures { octets_of result ≡ seen_from s.now i }
{
    word(s, i) % 16777216 + 16777216
}

// A sample of one octet, lightness alone, as a seen pixel.
pub fn grey(s: &[u8], i: usize) -> u32
    requires { i < length s.now }
    ensures { octets_of result ≡ grey_from s.now i }
{
    word_of(s[i], 128, 96, 1)
}

// Octet by octet, which the compiler joins: by `copy_from_slice` samples of two pixels took 1.8 of the time.
pub fn put_word(d: &mut [u8], at: usize, w: u32)
    requires { at + 4 ≤ length d.old }
    ensures { d.new ≡ put_at d.old at (octets_of w) }
{
    let [a, b, c, m] = w.to_le_bytes();
    d[at] = a;
    d[at + 1] = b;
    d[at + 2] = c;
    d[at + 3] = m;
}

// What both agree on, or else.
pub fn same(low: u32, up: u32, other: u32) -> u32
    ensures { result ≡ cond (eqb low up) up other }
{
    if low == up { up } else { other }
}

// The lower one under a mask's 0, and else the upper one.
pub fn pick<T: Copy>(m: u8, low: T, up: T) -> T
    ensures { result ≡ cond (eqb m 0) low up }
{
    if m == 0 { low } else { up }
}

// The same of two pixels: a sum of products, of which the compiler makes no branch.
pub fn either(m: u8, low: u32, up: u32) -> u32
    ensures { result ≡ cond (eqb m 0) low up }
{
    let b = u32::from(m != 0);
    low * (1 - b) + up * b
}

// Four pixels, one behind the other: where all were fetched before, the compiler puts them by one store.
pub fn put_four(d: &mut [u8], at: usize, a: u32, b: u32, c: u32, e: u32)
    requires { at + 16 ≤ length d.old }
    ensures { d.new ≡ put_at (put_at (put_at (put_at d.old at (octets_of a)) (at + 4) (octets_of b)) (at + 8) (octets_of c)) (at + 12) (octets_of e) }
{
    put_word(d, at, a);
    put_word(d, at + 4, b);
    put_word(d, at + 8, c);
    put_word(d, at + 12, e);
}
