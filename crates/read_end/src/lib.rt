// The end of page (9.4) behind its first FF D9: the second one (`end_table` of `page_rules`), then zero octets only.
#![tactic(auto)]

ghost use Rattle.std.specs.Prelude.{◌≡◌, ◌≤◌, length};
ghost use Rattle.segment_rules.specs.Rules.{longest_page};
ghost use Rattle.read_end.specs.Ends.{zeros_from, close_of};

use answers::Refusal;
use segment_rules::EOI;

fn trailing(s: &[u8], from: usize) -> Result<(), Refusal>
    requires { length s.now ≤ longest_page }
    ensures { result ≡ zeros_from s.now from }
{
    if s.len() <= from {
        return Ok(());
    }
    let i = octets_run::run_end(s, 0, from);
    if i < s.len() {
        return Err(Refusal::Trailing(i as u32));
    }
    Ok(())
}

pub fn judge_end(s: &[u8], at: u32) -> Result<(), Refusal>
    requires { length s.now ≤ longest_page }
    ensures { result ≡ close_of s.now at }
{
    let mark = octets_get::stands_at(s, at as usize, &EOI);
    read_field::field(s, Ok(()), at, 2, mark, Refusal::BadMark(at))?;
    trailing(s, at as usize + 2)
}
