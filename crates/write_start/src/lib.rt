// The start of page put: length 16, the version and the mode that are in force. The fixed octets are those that the reader compares.
#![tactic(auto)]

ghost use Rattle.std.specs.Prelude.{◌≡◌, ◌+◌, ◌≤◌, length};
ghost use Rattle.octets.specs.Octets.{put_at};
ghost use Rattle.start_rules.specs.Grammar.{mark_of, start_of};
ghost use Rattle.write_start.specs.Parts.{begin_with, start_fields};

use segment_rules::{APP13, EOI, SOI, START};
use start_rules::Head;

// A segment's beginning: the marker, its length, its ident.
pub fn put_begin(out: &mut [u8], at: usize, size: u16, ident: &[u8; 4])
    requires { at + 8 ≤ length out.old }
    ensures { out.new ≡ put_at out.old at (begin_with size ident.now) }
{
    octets_put::put_octets(out, at, &APP13);
    octets_put::put16(out, at + 2, size);
    octets_put::put_octets(out, at + 4, ident);
}

fn put_start_mark(out: &mut [u8])
    requires { 22 ≤ length out.old }
    ensures { out.new ≡ put_at out.old 0 mark_of }
{
    octets_put::put_octets(out, 0, &SOI);
    put_begin(out, 2, 16, &START);
}

fn put_start_fields(out: &mut [u8], hd: Head)
    requires { 22 ≤ length out.old }
    ensures { out.new ≡ put_at out.old 10 (start_fields hd) }
{
    let rules = hd.rules;
    let first = [rules.version as u8, rules.mode as u8, hd.mask, hd.image];
    octets_put::put_octets(out, 10, &first);
    octets_put::put16(out, 14, hd.main);
    octets_put::put32(out, 16, u32::from(hd.width));
    octets_put::put_octets(out, 20, &EOI);
}

pub fn put_start(out: &mut [u8], hd: Head)
    requires { 22 ≤ length out.old }
    ensures { out.new ≡ put_at out.old 0 (start_of hd) }
{
    put_start_mark(out);
    put_start_fields(out, hd);
}
