// A stripe put with its coded layers.
#![tactic(auto)]

ghost use Rattle.std.specs.Prelude.{◌≡◌, [], ◌∷◌, ◌+◌, length};
ghost use Rattle.octets.specs.Octets.{put_at};
ghost use Rattle.sheet_rules.specs.Record.{records_from};
ghost use Rattle.write_rules.specs.Layer.{layer_octets};
ghost use Rattle.write_rules.specs.Mode1.{stripe1};
ghost use Rattle.write_rules.specs.Modes.{stripe_by};
ghost use Rattle.write_stripe.specs.Parts.{Copied, PlacedThree, Placed};

use segment_rules::Mode;
use sheet_rules::Record;
use write_rules::MODE1_HEAD;

fn put_layer(out: &mut [u8], at: usize, d: &[u8], r: Record)
    requires { Copied out.old at d.now r }
    ensures { out.new ≡ put_at out.old at (layer_octets d.now r) }
{
    octets_put::copy_range(out, at, d, r.start as usize, r.len as usize);
}

// 01: the coded layers present stand in the order mask, background, foreground; of an absent one there are no octets. Answers the place after them.
fn put_three(out: &mut [u8], at: usize, d: &[u8], a: Record, b: Record, c: Record) -> usize
    requires { PlacedThree out.old at d.now a b c }
    ensures put { out.new ≡ put_at out.old at (stripe1 d.now (a ∷ b ∷ c ∷ [])) }
    ensures next { result ≡ at + length (stripe1 d.now (a ∷ b ∷ c ∷ [])) }
{
    let back = at + MODE1_HEAD + b.len as usize;
    let fore = back + a.len as usize;
    let next = fore + c.len as usize;
    write_head::put_head(out, at, a, b, c);
    put_layer(out, at + MODE1_HEAD, d, b);
    put_layer(out, back, d, a);
    put_layer(out, fore, d, c);
    next
}

// The stripe of so many records of the sheet, from the first on. Answers the place after it.
pub fn put_stripe(
    mode: Mode,
    out: &mut [u8],
    at: usize,
    s: &[u8],
    first: usize,
    count: usize,
    d: &[u8],
) -> usize
    requires { Placed mode out.old at s.now first count d.now }
    ensures put { out.new ≡ put_at out.old at (stripe_by mode d.now (records_from s.now count first)) }
    ensures next { result ≡ at + length (stripe_by mode d.now (records_from s.now count first)) }
{
    match mode {
        Mode::One => {
            let a = sheet_record::record_at(s, first);
            let b = sheet_record::record_at(s, first + 1);
            let c = sheet_record::record_at(s, first + 2);
            put_three(out, at, d, a, b, c)
        }
    }
}
