// The head of a stripe put (9.3): length 37. The fixed octets are those that the reader compares.
#![tactic(auto)]

ghost use Rattle.std.specs.Prelude.{◌≡◌, ◌++◌, ◌+◌, ◌≤◌, length};
ghost use Rattle.octets.specs.Octets.{octets32, put_at};
ghost use Rattle.mode1_rules.specs.Grammar.{fields_of};
ghost use Rattle.sheet_rules.specs.Judge.{coded};
ghost use Rattle.write_rules.specs.Mode1.{type_by, fields_by, begins};
ghost use Rattle.write_head.specs.Parts.{stripe_fields};

use segment_rules::STRIPE;
use sheet_rules::Record;

// Bit 0 background, bit 1 mask, bit 2 foreground: the layers that are coded.
fn type_of(a: Record, b: Record, c: Record) -> u8
    ensures { result ≡ type_by (coded a) (coded b) (coded c) }
{
    let back = u8::from(sheet_tests::is_coded(a));
    let mask = u8::from(sheet_tests::is_coded(b));
    let fore = u8::from(sheet_tests::is_coded(c));
    back + 2 * mask + 4 * fore
}

fn put_pair(out: &mut [u8], at: usize, x: u32, y: u32)
    requires { at + 8 ≤ length out.old }
    ensures { out.new ≡ put_at out.old at (octets32 x ++ octets32 y) }
{
    octets_put::put32(out, at, x);
    octets_put::put32(out, at + 4, y);
}

// The fields of 9.3 in its order: type, base colours, offsets, height, mask length.
fn put_fields(out: &mut [u8], at: usize, a: Record, b: Record, c: Record)
    requires { at + 31 ≤ length out.old }
    ensures { out.new ≡ put_at out.old at (stripe_fields a b c) }
{
    let t = type_of(a, b, c);
    let first = [t, a.base0, a.base1, a.base2, c.base0, c.base1, c.base2];
    octets_put::put_octets(out, at, &first);
    put_pair(out, at + 7, u32::from(a.x), u32::from(a.y));
    put_pair(out, at + 15, u32::from(c.x), u32::from(c.y));
    put_pair(out, at + 23, u32::from(b.height), b.len);
}

pub fn put_head(out: &mut [u8], at: usize, a: Record, b: Record, c: Record)
    requires { at + 39 ≤ length out.old }
    ensures { out.new ≡ put_at out.old at (begins ++ fields_of (fields_by a b c)) }
{
    write_start::put_begin(out, at, 37, &STRIPE);
    put_fields(out, at + 8, a, b, c);
}
