// A page written from a sheet and the buffer that its starts point into: a verdict on the sheet and its data, then the size, then the room, then the
// page. So a refusal changes nothing that was lent.
#![tactic(auto)]

ghost use Rattle.std.specs.Prelude.{◌≡◌, ◌+◌, ◌≤◌, length};
ghost use Rattle.octets.specs.Octets.{put_at};
ghost use Rattle.sheet_rules.specs.Record.{records};
ghost use Rattle.segment_rules.specs.Rules.{mode1};
ghost use Rattle.write_rules.specs.Sentences.{start_size, page_end};
ghost use Rattle.write_rules.specs.Writing.{stripes_by, head_by, page_by, Writes};
ghost use Rattle.write_page.specs.Steps.{Inside, StripeEnd, Lined, Fitting, Sound};

use answers::{Answer, Refusal};
use segment_rules::{EOI, LONGEST_PAGE, Mode, Rules, Version};
use sheet_rules::{RECORD_SIZE, TWO_RECORDS};
use start_rules::Head;
use write_rules::{START_SIZE, Tally};

// The record after the stripe that begins at record i: the next of layer 1, or the end. A record's third octet is its layer.
fn stripe_end(s: &[u8], i: usize, n: usize) -> usize
    requires { Inside s.now i n }
    ensures { StripeEnd s.now i n result }
{
    for j in i + 1..n {
        if s[j * RECORD_SIZE + 2] == 1 {
            return j;
        }
    }
    n
}

// Stripe by stripe; answers the place after the last.
fn put_stripes(mode: Mode, out: &mut [u8], s: &[u8], d: &[u8], n: usize) -> usize
    requires { Lined mode out.old s.now d.now n }
    ensures put { out.new ≡ put_at out.old start_size (stripes_by mode d.now (records s.now)) }
    ensures next { result ≡ start_size + length (stripes_by mode d.now (records s.now)) }
{
    let mut i: usize = 0;
    let mut at: usize = START_SIZE;
    // no `for`: a turn goes on by a stripe's records, however many it has
    while i < n {
        let e = stripe_end(s, i, n);
        at = write_stripe::put_stripe(mode, out, at, s, i, e - i, d);
        i = e;
    }
    at
}

// The page's width and main resolution are layer 2's, the second record's.
fn head_of(rules: Rules, s: &[u8], tally: Tally) -> Head
    ensures { result ≡ head_by rules (records s.now) tally }
{
    let head = Head {
        rules,
        mask: tally.mask,
        image: tally.image,
        main: 0,
        width: 0,
    };
    if s.len() < TWO_RECORDS {
        return head;
    }
    let r = sheet_record::record_at(s, 1);
    Head {
        main: r.res,
        width: r.width,
        ..head
    }
}

// The end is two fields of FF D9.
fn put_end(out: &mut [u8], at: usize)
    requires { at + 4 ≤ length out.old }
    ensures { out.new ≡ put_at out.old at page_end }
{
    octets_put::put_octets(out, at, &EOI);
    octets_put::put_octets(out, at + 2, &EOI);
}

fn emit_page(rules: Rules, out: &mut [u8], s: &[u8], d: &[u8], tally: Tally)
    requires { Fitting rules out.old s.now d.now tally }
    ensures { out.new ≡ put_at out.old 0 (page_by rules d.now (records s.now) tally) }
{
    let n = s.len() / RECORD_SIZE;
    write_start::put_start(out, head_of(rules, s, tally));
    let at = put_stripes(rules.mode, out, s, d, n);
    put_end(out, at);
}

// The rules of the call.
fn in_mode_1() -> Rules
    ensures { result ≡ mode1 }
{
    Rules {
        version: Version::Base,
        mode: Mode::One,
    }
}

// After the verdict: TooLong, then NoRoom, then the page.
fn write_sound(s: &[u8], d: &[u8], page: &mut [u8], tally: Tally) -> Answer
    requires { Sound mode1 s.now d.now tally }
    ensures { Writes s.now d.now page.old result page.new }
{
    let size = tally.size;
    if (LONGEST_PAGE as u64) < size {
        return Err(Refusal::TooLong);
    }
    if (page.len() as u64) < size {
        return Err(Refusal::NoRoom);
    }
    emit_page(in_mode_1(), page, s, d, tally);
    Ok(size)
}

pub fn write_page(s: &[u8], d: &[u8], page: &mut [u8]) -> Answer
    ensures { Writes s.now d.now page.old result page.new }
{
    let tally = write_verdict::judge_write(in_mode_1(), s, d)?;
    write_sound(s, d, page, tally)
}
