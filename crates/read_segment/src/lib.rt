// A segment behind the start of page (`segment_of` of `segment_rules`): its marker, its length, its ident, and its body. Nobody else knows where these stand. It is
// met up to two million times in a page, so that it branches where a table of fields has one way out.
#![tactic(auto)]

ghost use Rattle.std.specs.Prelude.{◌≡◌, ◌+◌, ◌≤◌, ◌<◌};
ghost use Rattle.field_rules.specs.Part.{span_of};
ghost use Rattle.segment_rules.specs.Rules.{longest_page};
ghost use Rattle.segment_rules.specs.Segment.{length_ok, segment_of};
ghost use Rattle.page_rules.specs.Reading.{due_with};
ghost use Rattle.read_segment.specs.Segments.{Marked, Behind, view_of, optional_at, on_span, stripe_at, ident_of, length_of};

use answers::Refusal;
use segment_rules::{APP13, MRC, STRIPE, Version};

// What a segment is: a stripe, by the place of its body; or an optional segment, by the place after it.
#[derive(Clone, Copy)]
pub enum Segment {
    Stripe { body: u32 },
    Optional { next: u32 },
}

fn length_ok(version: Version, size: u16) -> bool
    ensures { result ≡ length_ok version size }
{
    match version {
        Version::Base => 6 <= size,
    }
}

// 9.2.2: optional segments stand before the first stripe, and are numbered from 03 to FE.
fn is_optional(s: &[u8], k: u16, at: u32) -> bool
    requires { at ≤ longest_page + 4 }
    ensures { result ≡ optional_at k s.now at }
{
    let n = read_field::octet(s, at + 3);
    octets_get::stands_at(s, at as usize, &MRC) & ((k == 0) & ((3 <= n) & (n <= 0xFE)))
}

// The body of an optional segment is skipped, whatever it holds.
fn skip(s: &[u8], at: u32, body: u32) -> Result<Segment, Refusal>
    requires { at + body < 4294967296 }
    ensures { result ≡ on_span (span_of s.now at body) }
{
    if read_field::fits(s, at, body) {
        Ok(Segment::Optional { next: at + body })
    } else {
        Err(Refusal::Short(at))
    }
}

// Behind the ident of a stripe: the 65th is faulted there, then comes the length, which must be that of its body.
fn stripe_at(k: u16, body: u16, at: u32, size: u16) -> Result<Segment, Refusal>
    requires { Behind at size }
    ensures { result ≡ stripe_at k body at size }
{
    if k == 64 {
        return Err(Refusal::BadStripe(at));
    }
    if size - 6 != body {
        return Err(Refusal::BadLength(at - 2));
    }
    Ok(Segment::Stripe { body: at + 4 })
}

// After the marker and a length that is long enough: the ident, and what it makes of the segment.
fn by_ident(s: &[u8], k: u16, body: u16, at: u32, size: u16) -> Result<Segment, Refusal>
    requires { Behind at size }
    ensures { result ≡ ident_of k body s.now at size }
{
    if read_field::fits(s, at, 4) {
        if octets_get::stands_at(s, at as usize, &STRIPE) {
            return stripe_at(k, body, at, size);
        }
        if is_optional(s, k, at) {
            skip(s, at + 4, (size - 6) as u32)
        } else {
            Err(Refusal::BadMark(at))
        }
    } else {
        Err(Refusal::Short(at))
    }
}

// After the marker: a length below 6 at once.
fn by_length(s: &[u8], version: Version, k: u16, body: u16, at: u32) -> Result<Segment, Refusal>
    requires { (2 ≤ at) × (at ≤ longest_page + 2) }
    ensures { result ≡ length_of version k body s.now at }
{
    if read_field::fits(s, at, 2) {
        let size = read_field::two(s, at);
        if length_ok(version, size) {
            by_ident(s, k, body, at + 2, size)
        } else {
            Err(Refusal::BadLength(at))
        }
    } else {
        Err(Refusal::Short(at))
    }
}

// Behind k stripes, where a stripe has a body of so many octets. The caller has seen that two octets are there.
pub fn segment_at(
    s: &[u8],
    version: Version,
    k: u16,
    body: u16,
    at: u32,
) -> Result<Segment, Refusal>
    requires { Marked s.now at }
    ensures { result ≡ view_of (segment_of version (due_with body k) s.now at) }
{
    if octets_get::stands_at(s, at as usize, &APP13) {
        by_length(s, version, k, body, at + 2)
    } else {
        Err(Refusal::BadMark(at))
    }
}
