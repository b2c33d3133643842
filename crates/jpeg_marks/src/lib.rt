// What the walk does at a frame, at a scan and at the end of a JPEG layer.
#![tactic(auto)]

ghost use Rattle.std.specs.Prelude.{◌≡◌, ℕ, ◌≤◌, length};
ghost use Rattle.jpeg_rules.specs.Walk.{components_ok, frame_body_of, frame_of, scan_step_of, end_of};
ghost use Rattle.jpeg_marks.specs.Step.{Leads};
ghost use Rattle.jpeg_segment.specs.Room.{Room};

use jpeg_rules::{Fault, Reach, Said, Turn, Walk};
use std::ops::ControlFlow;

// 02, 2026-07: lightness alone, or lightness and chroma.
fn components_ok(n: u32) -> bool
    ensures { result ≡ components_ok n }
{
    (n == 1) | (n == 3)
}

// T.81 B.2.2: a precision octet stands before the number of lines, that before the samples a line, and that before the components.
fn frame_body(s: &[u8], st: Reach, n: usize, next: usize) -> Turn
    requires { Room s.now n 8 next }
    ensures { result ≡ frame_body_of s.now st n next }
{
    let height = octets_get::be16(s, n + 3);
    if height == 0 {
        return ControlFlow::Break(Err(Fault::BadLayer(n + 3)));
    }
    let width = octets_get::be16(s, n + 5);
    if width == 0 {
        return ControlFlow::Break(Err(Fault::BadLayer(n + 5)));
    }
    let components = u32::from(s[n + 7]);
    if components_ok(components) {
        ControlFlow::Continue(Reach {
            at: next,
            framed: true,
            said: Said {
                components,
                width,
                height,
                ..st.said
            },
            ..st
        })
    } else {
        ControlFlow::Break(Err(Fault::BadLayer(n + 7)))
    }
}

// Order before length: a frame out of its place is refused at its marker, whatever it holds.
pub fn frame_step(s: &[u8], st: Reach, n: usize) -> Turn
    requires { n ≤ length s.now }
    ensures { result ≡ frame_of s.now st n }
{
    if st.framed {
        return ControlFlow::Break(Err(Fault::BadLayer(st.at)));
    }
    if st.said.res == 0 {
        return ControlFlow::Break(Err(Fault::BadLayer(st.at)));
    }
    // a match, since `?` does not go from a Result to a ControlFlow, whose Break has good ends too
    match jpeg_segment::seg_at(s, n, 8) {
        Err(f) => ControlFlow::Break(Err(f)),
        Ok(next) => frame_body(s, st, n, next),
    }
}

// A marker that is due: what is known before it, its code and the place after that.
#[derive(Clone, Copy)]
pub struct Due {
    pub st: Reach,
    pub code: u8,
    pub next: usize,
}

// One marker on, with the marker that is due there; or the walk's answer.
pub type Step = ControlFlow<Walk, Due>;

// T.81 B.2.3: the scan header's components are not read; the data after it ends at the next marker, which is not looked for again.
pub fn scan_step(s: &[u8], st: Reach, n: usize) -> Step
    requires { n ≤ length s.now }
    ensures { (main : ℕ) → Leads s.now main result (scan_step_of s.now st n) }
{
    if st.framed {
        // no `?`, as above
        match jpeg_segment::seg_at(s, n, 2) {
            Err(f) => ControlFlow::Break(Err(f)),
            Ok(from) => match jpeg_scan::next_marker(s, from) {
                None => ControlFlow::Break(Err(Fault::Short(from))),
                Some(found) => ControlFlow::Continue(Due {
                    st: Reach {
                        at: found.place,
                        scanned: true,
                        ..st
                    },
                    code: found.code,
                    next: found.next,
                }),
            },
        }
    } else {
        ControlFlow::Break(Err(Fault::BadLayer(st.at)))
    }
}

pub fn end_step(st: Reach, n: usize) -> Turn
    ensures { result ≡ end_of st n }
{
    if st.scanned {
        ControlFlow::Break(Ok((n, st.said)))
    } else {
        ControlFlow::Break(Err(Fault::BadLayer(st.at)))
    }
}
