// A page read into a sheet: a verdict on the whole page, which lays the records into a scratch of its own; then the room; then the sheet.
// So a refusal changes nothing that was lent.
#![tactic(auto)]

ghost use Rattle.std.specs.Prelude.{◌*◌, ◌≤◌, length};
ghost use Rattle.sheet_rules.specs.Record.{record_size};
ghost use Rattle.page_rules.specs.Reading.{page_of, Reads};
ghost use Rattle.read_start.specs.Start.{head_at};
ghost use Rattle.read_page.specs.Steps.{rest_of, Judges, Lent, Begun, Emits};

use answers::{Answer, Refusal};
use page_rules::PAGE_SHEET;
use read_start::START_SIZE;
use segment_rules::LONGEST_PAGE;
use sheet_rules::RECORD_SIZE;

// After a start that is fine: the body, the second FF D9 of the end, and zero octets only. Answers how many records were laid.
fn judge_rest(out: &mut [u8], s: &[u8]) -> Result<u32, Refusal>
    requires { Begun out.old s.now }
    ensures { Judges (rest_of (head_at s.now) s.now) out.old result out.new }
{
    let hd = read_start::head_at(s);
    let body = read_body::read_body(out, s, hd, START_SIZE)?;
    read_end::judge_end(s, body.next)?;
    Ok(body.records)
}

fn judge_page(out: &mut [u8], s: &[u8]) -> Result<u32, Refusal>
    requires { Lent out.old s.now }
    ensures { Judges (page_of s.now) out.old result out.new }
{
    read_start::judge_start(s)?;
    judge_rest(out, s)
}

// The sheet has room for all of it, or stays as it was.
fn emit(sheet: &mut [u8], laid: &[u8], records: u32) -> Answer
    requires { records * record_size ≤ length laid.now }
    ensures { Emits laid.now records sheet.old result sheet.new }
{
    let size = records as usize * RECORD_SIZE;
    if sheet.len() < size {
        return Err(Refusal::NoRoom);
    }
    octets_put::copy_range(sheet, 0, laid, 0, size);
    Ok(records as u64)
}

pub fn read_page(page: &[u8], sheet: &mut [u8]) -> Answer
    ensures { Reads page.now sheet.old result sheet.new }
{
    if LONGEST_PAGE < page.len() {
        return Err(Refusal::TooLong);
    }
    let mut laid = [0u8; PAGE_SHEET];
    let records = judge_page(&mut laid, page)?;
    emit(sheet, &laid, records)
}
