// The record codec: the 28 octets of a record read as values, and put.
#![tactic(auto)]

ghost use Rattle.std.specs.Prelude.{◌≡◌, ◌+◌, ◌/◌, ◌≤◌, ◌<◌, length};
ghost use Rattle.octets.specs.Octets.{put_at};
ghost use Rattle.sheet_rules.specs.Record.{record_size, record_from, record_at, encode};

use sheet_rules::{RECORD_SIZE, Record};

// The record of the 28 octets from `at`.
pub fn record_from(s: &[u8], at: usize) -> Record
    requires { at + record_size ≤ length s.now }
    ensures { result ≡ record_from s.now at }
{
    Record {
        stripe: octets_get::be16(s, at),
        layer: s[at + 2],
        coder: s[at + 3],
        x: octets_get::be16(s, at + 4),
        y: octets_get::be16(s, at + 6),
        width: octets_get::be16(s, at + 8),
        height: octets_get::be16(s, at + 10),
        res: octets_get::be16(s, at + 12),
        base0: s[at + 14],
        base1: s[at + 15],
        base2: s[at + 16],
        octet17: s[at + 17],
        start: octets_get::be32(s, at + 18),
        len: octets_get::be32(s, at + 22),
        octets26: octets_get::be16(s, at + 26),
    }
}

// The record of number i.
pub fn record_at(s: &[u8], i: usize) -> Record
    requires { i < length s.now / record_size }
    ensures { result ≡ record_at s.now i }
{
    record_from(s, i * RECORD_SIZE)
}

// The top octet of a number: on a parameter of its own, whose bound is at hand, where a late field's is not.
pub fn top16(v: u16) -> u8
    ensures { result ≡ v / 256 }
{
    (v / 256) as u8
}

pub fn top32(v: u32) -> u8
    ensures { result ≡ v / 65536 / 256 }
{
    (v / 65536 / 256) as u8
}

// The 28 octets of a record, each at its place: ten parts by to_be_bytes, to be joined or taken apart, are no plainer.
pub fn encoded(r: Record) -> [u8; RECORD_SIZE]
    ensures { result ≡ encode r }
{
    [
        (r.stripe / 256) as u8,
        (r.stripe % 256) as u8,
        r.layer,
        r.coder,
        (r.x / 256) as u8,
        (r.x % 256) as u8,
        (r.y / 256) as u8,
        (r.y % 256) as u8,
        (r.width / 256) as u8,
        (r.width % 256) as u8,
        (r.height / 256) as u8,
        (r.height % 256) as u8,
        (r.res / 256) as u8,
        (r.res % 256) as u8,
        r.base0,
        r.base1,
        r.base2,
        r.octet17,
        top32(r.start),
        (r.start / 65536 % 256) as u8,
        (r.start % 65536 / 256) as u8,
        (r.start % 65536 % 256) as u8,
        top32(r.len),
        (r.len / 65536 % 256) as u8,
        (r.len % 65536 / 256) as u8,
        (r.len % 65536 % 256) as u8,
        top16(r.octets26),
        (r.octets26 % 256) as u8,
    ]
}

// Puts a record from `at` on.
pub fn put_record(d: &mut [u8], at: usize, r: Record)
    requires { at + record_size ≤ length d.old }
    ensures { d.new ≡ put_at d.old at (encode r) }
{
    let b = encoded(r);
    octets_put::put_octets(d, at, &b);
}
