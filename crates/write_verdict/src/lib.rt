// The verdict on a sheet that is to be written: the sheet, the mode, then each record in order, Short before Mismatch.
#![tactic(auto)]

ghost use Rattle.std.specs.Prelude.{◌≡◌, ◌+◌, ◌≤◌, leb, length};
ghost use Rattle.sheet_rules.specs.Record.{records};
ghost use Rattle.write_rules.specs.Modes.{head_in};
ghost use Rattle.segment_rules.specs.Rules.{most_layers};
ghost use Rattle.write_rules.specs.Sentences.{sheet_main};
ghost use Rattle.write_rules.specs.Writing.{counted, matches, record_step, mode_from, begun, records_pass, verdict_of};
ghost use Rattle.write_verdict.specs.Pass.{pass_of, layers_of, Few, Taken, accepted_of};

use answers::Refusal;
use segment_rules::{Mode, Rules};
use sheet_rules::{Record, TWO_RECORDS};
use write_rules::{FRAME_SIZE, MODE1_HEAD, MODE1_LAYERS, Tally};

// ---- what hangs on the mode

fn most_layers(mode: Mode) -> u8
    ensures { result ≡ most_layers mode }
{
    match mode {
        Mode::One => MODE1_LAYERS,
    }
}

// What a record adds to its stripe beside its coded data: in Mode 1 the stripe's segment, counted at its first layer.
fn head_octets(mode: Mode, r: Record) -> u64
    ensures { result ≡ head_in mode r }
{
    match mode {
        Mode::One => { if r.layer == 1 { MODE1_HEAD as u64 } else { 0 } }
    }
}

// ---- each record

// So many records of 32-bit lengths cannot wrap 64 bits.
fn size_with(mode: Mode, size: u64, r: Record) -> u64
    requires { size ≤ 4611686018427387904 }
    ensures { result ≡ size + head_in mode r + r.len }
{
    size + head_octets(mode, r) + u64::from(r.len)
}

#[tactic(auto, unfolding(write_rules::specs::Writing::counted))]
fn with_record(mode: Mode, tally: Tally, r: Record) -> Tally
    requires { tally.size ≤ 4611686018427387904 }
    ensures { result ≡ counted mode tally r }
{
    let size = size_with(mode, tally.size, r);
    if !sheet_tests::is_coded(r) {
        Tally { size, ..tally }
    } else if r.layer == 2 {
        Tally {
            mask: r.coder,
            size,
            ..tally
        }
    } else {
        Tally {
            image: r.coder,
            size,
            ..tally
        }
    }
}

#[tactic(auto, unfolding(write_rules::specs::Writing::matches))]
fn data_matches(d: &[u8], main: u16, tally: Tally, r: Record) -> bool
    requires { r.start + r.len ≤ length d.now }
    ensures { result ≡ matches d.now main tally r }
{
    if !sheet_tests::is_coded(r) {
        true
    } else if r.layer == 2 {
        (tally.mask == 0) | (tally.mask == r.coder)
    } else {
        write_agreement::data_agrees(d, main, r)
    }
}

// The sum is made in 64 bits, where it cannot wrap.
fn data_there(d: &[u8], r: Record) -> bool
    ensures { result ≡ leb (r.start + r.len) (length d.now) }
{
    octets_get::end_of(r.start, r.len) <= d.len() as u64
}

#[tactic(auto, unfolding(write_rules::specs::Writing::record_step, crate::specs::Pass::pass_of))]
fn pass_record(
    mode: Mode,
    d: &[u8],
    main: u16,
    tally: Tally,
    i: u32,
    r: Record,
) -> Result<Tally, Refusal>
    requires { tally.size ≤ 4611686018427387904 }
    ensures { result ≡ pass_of (record_step mode d.now main tally i r) }
{
    if !data_there(d, r) {
        return Err(Refusal::Short(i));
    }
    if !data_matches(d, main, tally, r) {
        return Err(Refusal::Mismatch(i));
    }
    Ok(with_record(mode, tally, r))
}

// Each record in order. A page of some megabytes is walked once for each image record that points at it: 128 walks at most.
fn pass_records(mode: Mode, s: &[u8], d: &[u8], main: u16, n: usize) -> Result<Tally, Refusal>
    requires { Few s.now n }
    ensures { result ≡ pass_of (records_pass mode d.now main begun 0 (records s.now)) }
{
    let mut tally = Tally {
        mask: 0,
        image: 0,
        size: FRAME_SIZE,
    };
    for i in 0..n {
        tally = pass_record(
            mode,
            d,
            main,
            tally,
            i as u32,
            sheet_record::record_at(s, i),
        )?;
    }
    Ok(tally)
}

fn first_above(most: u8, s: &[u8], n: usize) -> Option<u32>
    requires { Few s.now n }
    ensures { result ≡ layers_of (mode_from most 0 (records s.now)) }
{
    for i in 0..n {
        if most < sheet_record::record_at(s, i).layer {
            return Some(i as u32);
        }
    }
    None
}

// The main resolution is that of layer 2, the second record; every sheet that the judge takes has one.
fn main_of(s: &[u8]) -> u16
    ensures { result ≡ sheet_main (records s.now) }
{
    if s.len() < TWO_RECORDS {
        return 0;
    }
    sheet_record::record_at(s, 1).res
}

// A sheet that the judge takes: the mode before the records.
fn judge_records(mode: Mode, s: &[u8], d: &[u8], n: usize) -> Result<Tally, Refusal>
    requires { Taken s.now n }
    ensures { result ≡ pass_of (accepted_of mode s.now d.now) }
{
    if let Some(i) = first_above(most_layers(mode), s, n) {
        return Err(Refusal::BadMode(i));
    }
    pass_records(mode, s, d, main_of(s), n)
}

pub fn judge_write(rules: Rules, s: &[u8], d: &[u8]) -> Result<Tally, Refusal>
    ensures { result ≡ pass_of (verdict_of rules s.now d.now) }
{
    let mode = rules.mode;
    // not by map_err: its closure would ask that the record's number fits, which is known here alone
    match sheet_judge::judge(s) {
        Ok(counts) => judge_records(mode, s, d, counts.records),
        Err(record) => Err(Refusal::BadSheet(record as u32)),
    }
}
