// Reads a sheet from standard input and writes a line a record, or `refused 14 ` and the record at fault.
//
// No more octets are read than decide: the judge of so many is the judge of all (`sheet_cut` of `sheet_rules`), so an
// input of any length, endless too, is answered.
#![tactic(auto)]

ghost use Rattle.std.specs.Prelude.{◌≤◌, length};

use answers::Answer;
use answers_report::Report;
use sheet_rules::{DECISIVE_SIZE, RECORD_SIZE, Record};
use std::io;
use std::io::{Input, Print, Read};

// Nobody is told of a reader that went away: the listing stops.
fn main(rt: HostRuntime) {
    let mut buffer = [0u8; DECISIVE_SIZE];
    let n = read_full(&rt, &mut buffer);
    let _ = list(&rt, &buffer[..n]);
}

// Reads until the buffer is full or the input ends, and answers how many octets: one read may give fewer. An input that
// cannot be read further has ended.
fn read_full(rt: &impl Input, buffer: &mut [u8]) -> usize
    ensures { result ≤ length buffer.new }
{
    let mut input = rt.reader();
    let mut n: usize = 0;
    while n < buffer.len() {
        match input.read(&mut buffer[n..]) {
            Ok(0) => return n,
            Ok(more) => n += more,
            Err(_) => return n,
        }
    }
    n
}

fn list(rt: &impl Print, sheet: &[u8]) -> io::Result<()> {
    let judged: Answer = sheet_judge::sheet_answer(sheet);
    let answer = Report::from(judged);
    if answer.number == 0 {
        list_records(rt, sheet)
    } else {
        println!(rt; "refused {} {}", answer.number, answer.place)
    }
}

fn list_records(rt: &impl Print, sheet: &[u8]) -> io::Result<()> {
    for i in 0..sheet.len() / RECORD_SIZE {
        put_line(rt, sheet_record::record_at(sheet, i))?;
    }
    Ok(())
}

fn put_line(rt: &impl Print, r: Record) -> io::Result<()> {
    print!(rt; "{} {} {} ", r.stripe, r.layer, r.coder)?;
    print!(rt; "{} {} {} {} ", r.x, r.y, r.width, r.height)?;
    print!(rt; "{} {} {} {} ", r.res, r.base0, r.base1, r.base2)?;
    println!(rt; "{} {} {}", r.start, r.len, r.octet17)
}
