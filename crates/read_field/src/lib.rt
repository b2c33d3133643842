// Fields of a page, judged one after the other: place, octets, rule, refusal. A refusal flows through, so that a table of fields has one way out.
#![tactic(auto)]

ghost use Rattle.std.specs.Prelude.{◌≡◌, ◌+◌, ◌<◌, leb, length, get_or};
ghost use Rattle.octets.specs.Octets.{be16_at, be32_at};
ghost use Rattle.read_field.specs.Judged.{held_of, field_of};

use answers::Refusal;

// An octet, or 0 past the end.
pub fn octet(s: &[u8], at: u32) -> u8
    ensures { result ≡ get_or s.now at 0 }
{
    s.get(at as usize).copied().unwrap_or(0)
}

pub fn two(s: &[u8], at: u32) -> u16
    requires { at < 4294967294 }
    ensures { result ≡ be16_at s.now at }
{
    u16::from_be_bytes([octet(s, at), octet(s, at + 1)])
}

pub fn four(s: &[u8], at: u32) -> u32
    requires { at < 4294967290 }
    ensures { result ≡ be32_at s.now at }
{
    let hi = two(s, at) as u32;
    let lo = two(s, at + 2) as u32;
    hi * 65536 + lo
}

// The place is widened, so that its sum with the size cannot wrap.
pub fn fits(s: &[u8], at: u32, n: u32) -> bool
    ensures { result ≡ leb (at + n) (length s.now) }
{
    (at as u64) + (n as u64) <= s.len() as u64
}

pub fn held(r: Result<(), Refusal>, good: bool, refusal: Refusal) -> Result<(), Refusal>
    ensures { result ≡ held_of r good refusal }
{
    r?;
    if good { Ok(()) } else { Err(refusal) }
}

// A field of n octets: Short before its rule.
pub fn field(
    s: &[u8],
    r: Result<(), Refusal>,
    at: u32,
    n: u32,
    good: bool,
    refusal: Refusal,
) -> Result<(), Refusal>
    ensures { result ≡ field_of s.now r at n good refusal }
{
    held(held(r, fits(s, at, n), Refusal::Short(at)), good, refusal)
}
