// The judge of a sheet: the fold of specs/Judge.antt of `sheet_rules`, for every octet string.
#![tactic(auto)]

ghost use Rattle.std.specs.Prelude.{◌≡◌};
ghost use Rattle.sheet_rules.specs.Judge.{begin, after, after1, after2, after3, step_of, end_of, judge_of, sheet_answer};

use answers::{Answer, Refusal};
use sheet_rules::{Counts, RECORD_SIZE, Record, State};

pub fn begin_state() -> State
    ensures { result ≡ begin }
{
    State {
        stripe: 0,
        layer: 0,
        coded1: false,
        coded2: false,
        res1: 0,
        main: 0,
        width: 0,
        left: 65535,
    }
}

pub fn after_first(st: State, r: Record) -> State
    ensures { result ≡ after1 st r }
{
    State {
        stripe: r.stripe,
        layer: r.layer,
        coded1: sheet_tests::is_coded(r),
        coded2: false,
        res1: r.res,
        ..st
    }
}

// The height left is counted down, so that no sum can wrap.
pub fn after_second(st: State, r: Record) -> State
    ensures { result ≡ after2 st r }
{
    State {
        stripe: r.stripe,
        layer: r.layer,
        coded2: sheet_tests::is_coded(r),
        main: r.res,
        width: r.width,
        left: st.left.saturating_sub(r.height),
        ..st
    }
}

pub fn after_other(st: State, r: Record) -> State
    ensures { result ≡ after3 st r }
{
    State {
        stripe: r.stripe,
        layer: r.layer,
        ..st
    }
}

pub fn advance(st: State, r: Record) -> State
    ensures { result ≡ after st r }
{
    if r.layer == 1 {
        return after_first(st, r);
    }
    if r.layer == 2 {
        return after_second(st, r);
    }
    after_other(st, r)
}

pub fn step_one(st: State, r: Record) -> Option<State>
    ensures { result ≡ step_of st r }
{
    if sheet_tests::keeps_rules(st, r) {
        Some(advance(st, r))
    } else {
        None
    }
}

// The end, after n records with `part` octets of a part record left.
pub fn finish(st: State, n: usize, part: usize) -> Result<Counts, usize>
    ensures { result ≡ end_of st n part }
{
    if sheet_tests::may_close(st.layer) & (part == 0) {
        Ok(Counts {
            records: n,
            stripes: usize::from(st.stripe) + 1,
        })
    } else {
        Err(n)
    }
}

// What a sheet is judged to be: its counts where it is good, or the record at fault.
pub fn judge(sheet: &[u8]) -> Result<Counts, usize>
    ensures { result ≡ judge_of sheet.now }
{
    let n = sheet.len() / RECORD_SIZE;
    let mut st = begin_state();
    for i in 0..n {
        // as `.ok_or(i)?` it took 1.18 times the instructions
        let Some(next) = step_one(st, sheet_record::record_at(sheet, i)) else {
            return Err(i);
        };
        st = next;
    }
    finish(st, n, sheet.len() % RECORD_SIZE)
}

// The same as an answer of the paper's table.
pub fn sheet_answer(sheet: &[u8]) -> Answer
    ensures { result ≡ sheet_answer sheet.now }
{
    // not by map_err: its closure would ask that the record's number fits, which is known here alone
    match judge(sheet) {
        Ok(counts) => Ok(counts.records as u64),
        Err(record) => Err(Refusal::BadSheet(record as u32)),
    }
}
