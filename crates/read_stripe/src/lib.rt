// A Mode 1 stripe from the first octet of its body on (`stripe_read` of `mode1_rules`): its fields, its coded layers, and its records, which are laid where all
// of it is read. A stripe that is refused leaves nothing.
#![tactic(auto)]

ghost use Rattle.std.specs.Prelude.{◌≡◌};
ghost use Rattle.mode1_rules.specs.Reading.{stripe_read};
ghost use Rattle.read_stripe.specs.Steps.{Laying, Ready, layered, step_of, laid_of};

use answers::Refusal;
use mode1_rules::{Fields, STRIPE_BODY};
use sheet_rules::RECORD_SIZE;
use start_rules::Head;

// What a stripe comes to: the place after it, its height, and how many records were laid.
#[derive(Clone, Copy)]
pub struct Laid {
    pub next: u32,
    pub height: u32,
    pub records: u32,
}

// The layers of stripe k, whose fields are fine and whose coded data begins at `at`.
fn stripe_layers(
    out: &mut [u8],
    s: &[u8],
    hd: Head,
    k: u16,
    f: Fields,
    at: u32,
    first: u32,
) -> Result<Laid, Refusal>
    requires { Laying out.old s.now f at first }
    ensures step { result ≡ step_of (layered hd k f s.now at) }
    ensures laid { out.new ≡ laid_of out.old first (layered hd k f s.now at) }
{
    let layers = read_layers::read_layers(s, hd.main, f.kind, f.mask_length, at)?;
    let to = first as usize * RECORD_SIZE;
    read_records::put_stripe(out, to, hd, k, f, at, layers.back, layers.fore);
    Ok(Laid {
        next: layers.next,
        height: f.height,
        records: 3,
    })
}

// Stripe k, with so much of the page's height left; its first record is the one of this number.
pub fn read_stripe(
    out: &mut [u8],
    s: &[u8],
    hd: Head,
    k: u16,
    left: u32,
    at: u32,
    first: u32,
) -> Result<Laid, Refusal>
    requires { Ready out.old s.now left at first }
    ensures step { result ≡ step_of (stripe_read hd k left s.now at) }
    ensures laid { out.new ≡ laid_of out.old first (stripe_read hd k left s.now at) }
{
    let f = read_head::fields_at(s, at);
    read_head::judge_stripe(s, hd, left, at, f)?;
    stripe_layers(out, s, hd, k, f, at + STRIPE_BODY as u32, first)
}
