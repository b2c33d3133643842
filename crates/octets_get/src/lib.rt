// Octets of a slice as numbers and as fixed strings, read.
#![tactic(auto)]

ghost use Rattle.std.specs.Prelude.{◌≡◌, ◌+◌, ◌≤◌, ◌<◌, length};
ghost use Rattle.octets.specs.Octets.{be16_at, be32_at, stands_at};

// The bound comes with the value, so that sums of octets need no proof that an octet is small.
pub fn wide(x: u8) -> u16
    ensures { (result ≡ x) × (result < 256) }
{
    u16::from(x)
}

// The same of two octets, so that a product of two needs no proof that they are small.
pub fn wide16(x: u16) -> usize
    ensures { (result ≡ x) × (result < 65536) }
{
    usize::from(x)
}

// The end of coded data, in a type that holds it.
pub fn end_of(start: u32, len: u32) -> u64
    ensures { result ≡ start + len }
{
    u64::from(start) + u64::from(len)
}

pub fn be16(s: &[u8], at: usize) -> u16
    requires { at + 2 ≤ length s.now }
    ensures { result ≡ be16_at s.now at }
{
    u16::from_be_bytes([s[at], s[at + 1]])
}

pub fn be32(s: &[u8], at: usize) -> u32
    requires { at + 4 ≤ length s.now }
    ensures { result ≡ be32_at s.now at }
{
    u32::from_be_bytes([s[at], s[at + 1], s[at + 2], s[at + 3]])
}

// The room left is compared by a difference, since `at + want.len()` can wrap. It is tested once, so that the loop has one test an octet.
// Not by `starts_with`: pages of small segments were read in 1.1 to 1.2 times the time, and one of two million segments in 2.9 times.
pub fn stands_at(s: &[u8], at: usize, want: &[u8]) -> bool
    ensures { result ≡ stands_at s.now at want.now }
{
    if s.len() < at || s.len() - at < want.len() {
        return false;
    }
    for i in 0..want.len() {
        if s[at + i] != want[i] {
            return false;
        }
    }
    true
}
