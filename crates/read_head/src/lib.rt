// The fields of a stripe (9.3), by name and judged: the table `stripe_table` of `mode1_rules` in code, line by line. No other crate knows where they stand.
#![tactic(auto)]

ghost use Rattle.std.specs.Prelude.{◌≡◌, [], ◌≤◌};
ghost use Rattle.field_rules.specs.Field.{fields};
ghost use Rattle.sheet_rules.specs.Record.{colour_at};
ghost use Rattle.segment_rules.specs.Rules.{longest_page};
ghost use Rattle.mode1_rules.specs.Kinds.{has_back, has_mask, has_fore, type_ok, offset_ok};
ghost use Rattle.mode1_rules.specs.Reading.{mask_length_ok, stripe_table};
ghost use Rattle.read_field.specs.Judged.{judged_of};
ghost use Rattle.read_head.specs.Fields.{fields_at, Shown};

use answers::Refusal;
use mode1_rules::Fields;
use read_field::{field, four, octet};
use sheet_rules::Colour;
use start_rules::Head;

pub fn has_back(t: u8) -> bool
    ensures { result ≡ has_back t }
{
    t % 2 == 1
}

pub fn has_mask(t: u8) -> bool
    ensures { result ≡ has_mask t }
{
    t / 2 % 2 == 1
}

pub fn has_fore(t: u8) -> bool
    ensures { result ≡ has_fore t }
{
    t / 4 % 2 == 1
}

fn type_ok(hd: Head, t: u8) -> bool
    ensures { result ≡ type_ok hd t }
{
    ((t == 1) | ((t == 2) | ((t == 3) | ((t == 4) | ((t == 6) | (t == 7))))))
        & (!has_mask(t) | (hd.mask != 0))
        & (!(has_back(t) | has_fore(t)) | (hd.image != 0))
}

fn offset_ok(present: bool, x: u32, y: u32) -> bool
    ensures { result ≡ offset_ok present x y }
{
    !present | (x <= 65535) & (y <= 65535)
}

fn mask_length_ok(t: u8, n: u32) -> bool
    ensures { result ≡ mask_length_ok t n }
{
    if has_mask(t) { n != 0 } else { n == 0 }
}

fn colour_at(s: &[u8], at: u32) -> Colour
    requires { at ≤ 16777300 }
    ensures { result ≡ colour_at s.now at }
{
    Colour {
        c0: octet(s, at),
        c1: octet(s, at + 1),
        c2: octet(s, at + 2),
    }
}

// The fields as they stand, judged or not: what is past the end counts as zeros.
pub fn fields_at(s: &[u8], at: u32) -> Fields
    requires { at ≤ longest_page }
    ensures { result ≡ fields_at s.now at }
{
    let back = colour_at(s, at + 1);
    let fore = colour_at(s, at + 4);
    Fields {
        kind: octet(s, at),
        back,
        fore,
        back_x: four(s, at + 7),
        back_y: four(s, at + 11),
        fore_x: four(s, at + 15),
        fore_y: four(s, at + 19),
        height: four(s, at + 23),
        mask_length: four(s, at + 27),
    }
}

// The fields were read before, so that they are read once. An offset is one field of eight octets.
pub fn judge_stripe(s: &[u8], hd: Head, left: u32, at: u32, f: Fields) -> Result<(), Refusal>
    requires { Shown s.now at f }
    ensures { result ≡ judged_of (fields (stripe_table hd left) [] s.now at) }
{
    let kind = type_ok(hd, f.kind);
    let back = offset_ok(has_back(f.kind), f.back_x, f.back_y);
    let fore = offset_ok(has_fore(f.kind), f.fore_x, f.fore_y);
    let height = (1 <= f.height) & (f.height <= left);
    let mask = mask_length_ok(f.kind, f.mask_length);
    let r = field(s, Ok(()), at, 1, kind, Refusal::BadType(at));
    let r = field(s, r, at + 1, 3, true, Refusal::BadStripe(at + 1));
    let r = field(s, r, at + 4, 3, true, Refusal::BadStripe(at + 4));
    let r = field(s, r, at + 7, 8, back, Refusal::BadStripe(at + 7));
    let r = field(s, r, at + 15, 8, fore, Refusal::BadStripe(at + 15));
    let r = field(s, r, at + 23, 4, height, Refusal::BadStripe(at + 23));
    field(s, r, at + 27, 4, mask, Refusal::BadStripe(at + 27))
}
