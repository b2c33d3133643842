// A marker segment of a JPEG layer: its length, and the resolution that a tagged one gives.
#![tactic(auto)]

ghost use Rattle.std.specs.Prelude.{◌≡◌, ◌≤◌, length};
ghost use Rattle.jpeg_rules.specs.Walk.{seg_of, resolves, tag_of, moved, segment_of};
ghost use Rattle.jpeg_segment.specs.Room.{Room};

use jpeg_rules::{Fault, G3FAX, Reach, Said, Turn};
use std::ops::ControlFlow;

// The length counts itself (T.81 B.1.1.4). It is compared with the room left, since `n + len` can wrap.
pub fn seg_at(s: &[u8], n: usize, least: u16) -> Result<usize, Fault>
    requires { n ≤ length s.now }
    ensures { result ≡ seg_of s.now n least }
{
    if s.len() - n < 2 {
        return Err(Fault::Short(n));
    }
    let size = octets_get::be16(s, n);
    if size < least {
        return Err(Fault::BadLength(n));
    }
    let len = size as usize;
    if s.len() - n < len {
        return Err(Fault::Short(n + 2));
    }
    Ok(n + len)
}

pub fn moved_to(st: Reach, at: usize, res: u16) -> Reach
    ensures { result ≡ moved st at res }
{
    Reach {
        at,
        said: Said { res, ..st.said },
        ..st
    }
}

// 01: only the first tagged segment gives the resolution; one that is too short for it is no tagged one.
fn tag_of(s: &[u8], st: Reach, code: u8, n: usize, next: usize) -> Option<u16>
    requires { Room s.now n 2 next }
    ensures { result ≡ tag_of s.now st code n }
{
    if code != 0xE1 {
        return None;
    }
    if st.said.res != 0 {
        return None;
    }
    if next - n < 12 {
        return None;
    }
    if octets_get::stands_at(s, n + 2, &G3FAX) {
        Some(octets_get::be16(s, n + 10))
    } else {
        None
    }
}

fn resolution_fits(main: u16, r: u16) -> bool
    ensures { result ≡ resolves main r }
{
    resolution::is_listed(r) & resolution::is_divisor(r, main)
}

pub fn segment_step(s: &[u8], main: u16, st: Reach, code: u8, n: usize) -> Turn
    requires { n ≤ length s.now }
    ensures { result ≡ segment_of s.now main st code n }
{
    // a match, since `?` does not go from a Result to a ControlFlow, whose Break has good ends too
    match seg_at(s, n, 2) {
        Err(f) => ControlFlow::Break(Err(f)),
        Ok(next) => match tag_of(s, st, code, n, next) {
            None => ControlFlow::Continue(moved_to(st, next, st.said.res)),
            Some(r) => {
                if resolution_fits(main, r) {
                    ControlFlow::Continue(moved_to(st, next, r))
                } else {
                    ControlFlow::Break(Err(Fault::BadRes(n + 10)))
                }
            }
        },
    }
}
