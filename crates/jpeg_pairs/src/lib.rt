// Scan data by pairs of octets, 32 at a time: the first pair that is more than an octet of data, FF 00 or a restart marker without fill.
#![tactic(auto)]

ghost use Rattle.std.specs.Prelude.{true, ◌≡◌, ◌+◌, ◌<◌, length};
ghost use Rattle.jpeg_rules.specs.Walk.{scan_of};
ghost use Rattle.jpeg_pairs.specs.Pairs.{codes, plain_pair, Suspect};

// Without branches, so that sixteen are judged at a time.
pub fn is_plain(a: u8, b: u8) -> bool
    ensures { result ≡ plain_pair a b }
{
    (a != 0xFF) | (b == 0x00) | ((0xD0 <= b) & (b <= 0xD7))
}

// All 32 pairs from i on are judged, whatever is found: a fixed count without another way out is what makes it fast.
fn all_plain(s: &[u8], i: usize) -> bool
    requires { i + 32 < length s.now }
    ensures { result ≡ true → scan_of s.now i ≡ scan_of s.now (i + 32) }
{
    octets_run::each::<32, _>(|j| is_plain(s[i + j], s[i + j + 1]))
}

// With branches, for octet after octet.
fn is_code(b: u8) -> bool
    ensures { result ≡ codes b }
{
    b != 0x00 && (b < 0xD0 || 0xD7 < b)
}

// For the block that has such a pair and for the last octets. The last octet has none after it. As a `for`, or with `&&`, pages of many scans were read
// in 1.3 times the time.
fn near(s: &[u8], from: usize) -> usize
    requires { from < length s.now }
    ensures { Suspect s.now from result }
{
    let last = s.len() - 1;
    let mut i = from;
    while i < last {
        if s[i] == 0xFF {
            if is_code(s[i + 1]) {
                return i;
            }
            i += 1;
        } else {
            i += 1;
        }
    }
    i
}

fn by_blocks(s: &[u8], from: usize) -> usize
    requires { from < length s.now }
    ensures { Suspect s.now from result }
{
    let n = s.len();
    let mut i = from;
    // no `for`: where the last clean block ends is what is looked for
    while 32 < n - i && all_plain(s, i) {
        i += 32;
    }
    near(s, i)
}

// A scan may have no data, so that the first pair is looked at before a block.
pub fn suspect(s: &[u8], from: usize) -> usize
    requires { from + 1 < length s.now }
    ensures { Suspect s.now from result }
{
    if s[from] == 0xFF && is_code(s[from + 1]) {
        return from;
    }
    by_blocks(s, from)
}
