// The body of a page, segment by segment: optional segments, stripes and the end (`body_from` of `body_rules`). What a stripe is, its mode says: nothing here
// knows how many records it has or how long it is.
#![tactic(auto)]

ghost use Rattle.std.specs.Prelude.{◌≡◌, ◌≤◌};
ghost use Rattle.segment_rules.specs.Rules.{longest_page};
ghost use Rattle.page_rules.specs.Grammar.{body_in};
ghost use Rattle.page_rules.specs.Reading.{stripe_read_in};
ghost use Rattle.read_stripe.specs.Steps.{step_of, laid_of};
ghost use Rattle.read_body.specs.Steps.{StripeRoom, Ready, ended_of, StripeTurned, Standing, Turned, Opened, Bodied};

use answers::Refusal;
use mode1_rules::STRIPE_BODY;
use read_segment::Segment;
use read_stripe::Laid;
use segment_rules::{EOI, Mode};
use start_rules::Head;
use std::ops::ControlFlow;

// Where reading the body stands: the place, the number of the stripe that may come, how much of the page's height is left, and how many records are laid.
#[derive(Clone, Copy)]
pub struct Place {
    pub at: u32,
    pub stripe: u16,
    pub left: u32,
    pub records: u32,
}

// What the body comes to: how many records it has, and the place after its first FF D9.
#[derive(Clone, Copy)]
pub struct Body {
    pub records: u32,
    pub next: u32,
}

// The octets of a stripe's own body.
fn stripe_body(mode: Mode) -> u16
    ensures { result ≡ body_in mode }
{
    match mode {
        Mode::One => STRIPE_BODY,
    }
}

// Stripe k from its body on, by the mode.
fn stripe_step(
    out: &mut [u8],
    s: &[u8],
    hd: Head,
    k: u16,
    left: u32,
    at: u32,
    first: u32,
) -> Result<Laid, Refusal>
    requires { StripeRoom hd.rules.mode out.old s.now left at first }
    ensures step { result ≡ step_of (stripe_read_in hd.rules.mode hd k left s.now at) }
    ensures laid { out.new ≡ laid_of out.old first (stripe_read_in hd.rules.mode hd k left s.now at) }
{
    let rules = hd.rules;
    let mode = rules.mode;
    match mode {
        Mode::One => read_stripe::read_stripe(out, s, hd, k, left, at, first),
    }
}

// A stripe whose body stands at `body`: where reading stands behind it.
fn stripe_turn(out: &mut [u8], s: &[u8], hd: Head, p: Place, body: u32) -> Result<Place, Refusal>
    requires { Ready hd out.old s.now p body }
    ensures { StripeTurned hd p body s.now out.old result out.new }
{
    let laid = stripe_step(out, s, hd, p.stripe, p.left, body, p.records)?;
    Ok(Place {
        at: laid.next,
        stripe: p.stripe + 1,
        left: p.left - laid.height,
        records: p.records + laid.records,
    })
}

// A page without stripes is faulted at the FF D9.
fn body_end(p: Place) -> Result<Body, Refusal>
    requires { p.at ≤ longest_page }
    ensures { result ≡ ended_of p }
{
    if p.stripe == 0 {
        return Err(Refusal::BadStripe(p.at));
    }
    Ok(Body {
        records: p.records,
        next: p.at + 2,
    })
}

// What stands at the place: the end, a stripe or an optional segment. Behind the last two reading goes on.
fn body_turn(
    out: &mut [u8],
    s: &[u8],
    hd: Head,
    p: Place,
) -> Result<ControlFlow<Body, Place>, Refusal>
    requires { Standing hd out.old s.now p }
    ensures { Turned hd p s.now out.old result out.new }
{
    if !read_field::fits(s, p.at, 2) {
        return Err(Refusal::Short(p.at));
    }
    if octets_get::stands_at(s, p.at as usize, &EOI) {
        return Ok(ControlFlow::Break(body_end(p)?));
    }
    let rules = hd.rules;
    let body = stripe_body(rules.mode);
    let next = match read_segment::segment_at(s, rules.version, p.stripe, body, p.at)? {
        Segment::Optional { next } => Place { at: next, ..p },
        Segment::Stripe { body } => stripe_turn(out, s, hd, p, body)?,
    };
    Ok(ControlFlow::Continue(next))
}

// From behind the start of page on. Each turn passes eight octets at least, so that the loop ends.
pub fn read_body(out: &mut [u8], s: &[u8], hd: Head, from: u32) -> Result<Body, Refusal>
    requires { Opened hd out.old s.now from }
    ensures { Bodied hd s.now from out.old result out.new }
{
    let mut p = Place {
        at: from,
        stripe: 0,
        left: 65535,
        records: 0,
    };
    loop {
        match body_turn(out, s, hd, p)? {
            ControlFlow::Continue(q) => p = q,
            ControlFlow::Break(body) => return Ok(body),
        }
    }
}
