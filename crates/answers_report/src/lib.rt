// An answer as the viewer in C is given it.
#![tactic(auto, unfolding(crate::specs::Report::report_of))]

ghost use Rattle.std.specs.Prelude.{◌≡◌, Err};
ghost use Rattle.answers_report.specs.Report.{refusal_of, report_of};

use answers::{Answer, Refusal};

// The layout is the header's: viewers link it.
#[repr(C)]
#[derive(Clone, Copy)]
pub struct Report {
    pub number: u32,
    pub place: u32,
    pub count: u64,
}

// A report without a count, so that each line of the table below is a number and a place.
fn refused(number: u32, place: u32) -> Report
    ensures { result ≡ refusal_of number place }
{
    Report {
        number,
        place,
        count: 0,
    }
}

// The one match on all refusals: everything else hands them on whole.
impl From<Refusal> for Report {
    ghost from_gives = { λ r report. report ≡ report_of (Err r) };

    fn from(r: Refusal) -> Report {
        match r {
            Refusal::Short(p) => refused(1, p),
            Refusal::BadMark(p) => refused(2, p),
            Refusal::BadLength(p) => refused(3, p),
            Refusal::BadVersion(p) => refused(4, p),
            Refusal::BadMode(p) => refused(5, p),
            Refusal::BadCoder(p) => refused(6, p),
            Refusal::BadRes(p) => refused(7, p),
            Refusal::BadWidth(p) => refused(8, p),
            Refusal::BadType(p) => refused(9, p),
            Refusal::BadStripe(p) => refused(10, p),
            Refusal::BadLayer(p) => refused(11, p),
            Refusal::Trailing(p) => refused(12, p),
            Refusal::NoRoom => refused(13, 0),
            Refusal::BadSheet(p) => refused(14, p),
            Refusal::BadPlane(p) => refused(15, p),
            Refusal::Mismatch(p) => refused(16, p),
            Refusal::BadLine => refused(17, 0),
            Refusal::TooLong => refused(18, 0),
        }
    }
}

impl From<Answer> for Report {
    ghost from_gives = { λ a report. report ≡ report_of a };

    fn from(a: Answer) -> Report {
        match a {
            Ok(count) => Report {
                number: 0,
                place: 0,
                count,
            },
            Err(r) => Report::from(r),
        }
    }
}
