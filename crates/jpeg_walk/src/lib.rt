// Where a JPEG image layer ends (01): the walk over its markers, as specs/Walk.antt of `jpeg_rules` has it, for every octet string.
#![tactic(auto)]

ghost use Rattle.std.specs.Prelude.{◌≡◌, ℕ, ◌≤◌, length};
ghost use Rattle.jpeg_rules.specs.Marker.{class_of};
ghost use Rattle.jpeg_marks.specs.Step.{Leads};
ghost use Rattle.jpeg_rules.specs.Walk.{mark_of, walk_of};

use jpeg_marks::{Due, Step};
use jpeg_rules::{Class, Fault, Marker, Reach, Said, Turn, Walk};
use std::ops::ControlFlow;

// A turn, and the marker that is due after it. In a scan that marker is known already.
fn after(s: &[u8], turn: Turn) -> Step
    ensures { (main : ℕ) → Leads s.now main result turn }
{
    let st = turn?;
    match jpeg_marker::marker_at(s, st.at) {
        Marker::Code { code, next } => ControlFlow::Continue(Due { st, code, next }),
        Marker::Missing => ControlFlow::Break(Err(Fault::BadLayer(st.at))),
        Marker::Cut => ControlFlow::Break(Err(Fault::Short(st.at))),
    }
}

// A marker whose code has been read, with n after it.
fn mark_step(s: &[u8], main: u16, st: Reach, code: u8, n: usize) -> Step
    requires { n ≤ length s.now }
    ensures { Leads s.now main result (mark_of s.now main st code n (class_of code)) }
{
    match jpeg_marker::class_of(code) {
        Class::Alone => after(
            s,
            ControlFlow::Continue(jpeg_segment::moved_to(st, n, st.said.res)),
        ),
        Class::Frame => after(s, jpeg_marks::frame_step(s, st, n)),
        Class::Scan => jpeg_marks::scan_step(s, st, n),
        Class::End => after(s, jpeg_marks::end_step(st, n)),
        Class::Wrong => ControlFlow::Break(Err(Fault::BadLayer(st.at))),
        Class::Segment => after(s, jpeg_segment::segment_step(s, main, st, code, n)),
    }
}

// T.81 B.2.1: the start of image comes first, without fill. Each turn passes two octets at least, so that the loop ends.
pub fn walk_layer(s: &[u8], start: usize, main: u16) -> Walk
    ensures { result ≡ walk_of s.now start main }
{
    if s.len() <= start || s.len() - start < 2 {
        return Err(Fault::Short(start));
    }
    if s[start] != 0xFF || s[start + 1] != 0xD8 {
        return Err(Fault::BadLayer(start));
    }
    let mut step = after(
        s,
        ControlFlow::Continue(Reach {
            at: start + 2,
            framed: false,
            scanned: false,
            said: Said {
                width: 0,
                height: 0,
                res: 0,
                components: 0,
            },
        }),
    );
    loop {
        match step {
            ControlFlow::Continue(due) => {
                step = mark_step(s, main, due.st, due.code, due.next);
            }
            ControlFlow::Break(w) => {
                return w;
            }
        }
    }
}
