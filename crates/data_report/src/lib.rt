// What was found of a layer's coded data, as numbers for the viewer in C.
#![tactic(auto, unfolding(crate::specs::Reported::report_found, answers_report::specs::Report::report_of))]

ghost use Rattle.std.specs.Prelude.{◌≡◌};
ghost use Rattle.data_report.specs.Reported.{report_at, report_found};

use answers::{Answer, Refusal};
use answers_report::Report;
use data_rules::Part;

// What was found, as the viewer in C is given it: number, place and count of the answer, and where the part stands. The layout is the header's: viewers link it.
#[repr(C)]
#[derive(Clone, Copy)]
pub struct DataReport {
    pub number: u32,
    pub place: u32,
    pub count: u64,
    pub source: u32,
    pub start: u32,
}

// The report of an answer and of a place.
fn report_at(a: Answer, source: u32, start: u32) -> DataReport
    ensures { result ≡ report_at a source start }
{
    let r = Report::from(a);
    DataReport {
        number: r.number,
        place: r.place,
        count: r.count,
        source,
        start,
    }
}

impl From<Result<Part, Refusal>> for DataReport {
    ghost from_gives = { λ f report. report ≡ report_found f };

    fn from(f: Result<Part, Refusal>) -> DataReport {
        match f {
            Ok(p) => report_at(Ok(p.len as u64), p.source as u32, p.start),
            Err(r) => report_at(Err(r), 0, 0),
        }
    }
}
