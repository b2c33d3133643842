// Sixteen octets of a mask at once: whether they are all 0 or all 1, so that what they show is laid without a choice.
#![tactic(auto)]

ghost use Rattle.std.specs.Prelude.{◌≡◌, true, ◌+◌, ◌-◌, ◌<◌, ◌≤◌, length, get_or};
ghost use Rattle.paint_blocks.specs.Blocks.{Alike, Eight};

pub const BLOCK: usize = 16;

// Eight times the octet 1.
const EIGHT_ONES: u64 = 72340172838076673;

// Eight octets as one number, by one load.
fn eight(s: &[u8], i: usize) -> u64
    requires { i + 8 ≤ length s.now }
    ensures { Eight s.now i result }
{
    u64::from(paint_words::word(s, i)) + u64::from(paint_words::word(s, i + 4)) * 4294967296
}

// All sixteen from x on are 0.
pub fn zeros(m: &[u8], x: usize) -> bool
    requires { x + 16 ≤ length m.now }
    ensures { result ≡ true → Alike 0 m.now x (x + 16) }
{
    (eight(m, x) == 0) & (eight(m, x + 8) == 0)
}

// All are 1.
pub fn ones(m: &[u8], x: usize) -> bool
    requires { x + 16 ≤ length m.now }
    ensures { result ≡ true → Alike 1 m.now x (x + 16) }
{
    (eight(m, x) == EIGHT_ONES) & (eight(m, x + 8) == EIGHT_ONES)
}

// All are what the first is: eight times an octet is one product, and two comparisons are fewer than for 0 and for 1.
pub fn uniform(m: &[u8], x: usize) -> bool
    requires { x + 16 ≤ length m.now }
    ensures { result ≡ true → Alike (get_or m.now x 0) m.now x (x + 16) }
{
    let v = u64::from(m[x]) * EIGHT_ONES;
    (eight(m, x) == v) & (eight(m, x + 8) == v)
}

// From x on, where sixteen are mixed, up to the next that are not: behind the first they are looked for in steps of four, since where masks change all
// the time one is as good as another.
pub fn mixed_end(m: &[u8], x: usize, n: usize) -> usize
    requires { (x + 16 ≤ n) × (n ≤ length m.now) }
    ensures { (x < result) × (result ≤ n) }
{
    let mut e = x + BLOCK;
    let mut step = BLOCK;
    while step <= n - e {
        if uniform(m, e) {
            return e;
        }
        e += step;
        step = 4 * BLOCK;
    }
    e
}
