// Markers of a JPEG stream (T.81 B.1.1.2 and B.1.1.3): the class of a code, and the marker where one is due.
#![tactic(auto)]

ghost use Rattle.std.specs.Prelude.{◌≡◌, ◌≤◌, length, drop};
ghost use Rattle.jpeg_rules.specs.Marker.{class_of, code_from, marker_of};

use jpeg_rules::{Class, Marker};

// T.81 table B.1, as 01 restricts it: DHT, JPG and DAC are no frames, and restart markers stand in scan data only.
pub fn class_of(code: u8) -> Class
    ensures { result ≡ class_of code }
{
    match code {
        0x01 => Class::Alone,
        0xC4 | 0xC8 | 0xCC => Class::Segment,
        0xC0..=0xCF => Class::Frame,
        0xDA => Class::Scan,
        0xD9 => Class::End,
        0x00..=0xBF | 0xD0..=0xD8 | 0xFF => Class::Wrong,
        _ => Class::Segment,
    }
}

// A marker whose run may go on at i: more FF are fill.
fn marker_behind(s: &[u8], i: usize) -> Marker
    requires { i ≤ length s.now }
    ensures { result ≡ code_from (drop i s.now) i }
{
    let e = octets_run::run_end(s, 0xFF, i);
    if e < s.len() {
        return Marker::Code {
            code: s[e],
            next: e + 1,
        };
    }
    Marker::Cut
}

// The room is compared by a difference, since `at + 2` can wrap. Nearly all markers have no fill, and are read at once.
pub fn marker_at(s: &[u8], at: usize) -> Marker
    ensures { result ≡ marker_of s.now at }
{
    if s.len() <= at {
        return Marker::Cut;
    }
    if s.len() - at < 2 {
        return Marker::Cut;
    }
    if s[at] != 0xFF {
        return Marker::Missing;
    }
    if s[at + 1] != 0xFF {
        return Marker::Code {
            code: s[at + 1],
            next: at + 2,
        };
    }
    marker_behind(s, at + 2)
}
