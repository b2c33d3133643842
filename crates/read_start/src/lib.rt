// The start of page (9.2.1), and the termination (9.2.3): the table `start_table` of `start_rules` in code, line by line.
#![tactic(auto)]

ghost use Rattle.std.specs.Prelude.{◌≡◌, []};
ghost use Rattle.field_rules.specs.Field.{fields};
ghost use Rattle.segment_rules.specs.declared.Mode.TheVariants.{One};
ghost use Rattle.start_rules.specs.Coders.{mask_coder, image_coder};
ghost use Rattle.start_rules.specs.Reading.{start_table};
ghost use Rattle.read_field.specs.Judged.{judged_of};
ghost use Rattle.read_start.specs.Start.{head_at};

use answers::Refusal;
use octets_get::stands_at;
use read_field::{field, four, held, octet, two};
use segment_rules::{APP13, EOI, Mode, Rules, SOI, START, Version};
use start_rules::Head;

// The octets of the start of page and of the termination: the body stands behind them.
pub const START_SIZE: u32 = 22;

fn mask_coder(c: u8) -> bool
    ensures { result ≡ mask_coder One c }
{
    (c == 0) | ((c == 1) | ((c == 2) | ((c == 4) | (c == 8))))
}

fn image_coder(c: u8) -> bool
    ensures { result ≡ image_coder One c }
{
    (c == 0) | (c == 1)
}

// The length is judged twice: below 6 at once, and against 16 after the ident that it depends on.
pub fn judge_start(s: &[u8]) -> Result<(), Refusal>
    ensures { result ≡ judged_of (fields start_table [] s.now 0) }
{
    let size = two(s, 4);
    let width = four(s, 16);
    let r = field(s, Ok(()), 0, 2, stands_at(s, 0, &SOI), Refusal::BadMark(0));
    let r = field(s, r, 2, 2, stands_at(s, 2, &APP13), Refusal::BadMark(2));
    let r = field(s, r, 4, 2, 6 <= size, Refusal::BadLength(4));
    let r = field(s, r, 6, 4, stands_at(s, 6, &START), Refusal::BadMark(6));
    let r = held(r, size == 16, Refusal::BadLength(4));
    let r = field(s, r, 10, 1, octet(s, 10) == 0, Refusal::BadVersion(10));
    let r = field(s, r, 11, 1, octet(s, 11) == 1, Refusal::BadMode(11));
    let r = field(s, r, 12, 1, mask_coder(octet(s, 12)), Refusal::BadCoder(12));
    let r = field(
        s,
        r,
        13,
        1,
        image_coder(octet(s, 13)),
        Refusal::BadCoder(13),
    );
    let r = field(
        s,
        r,
        14,
        2,
        resolution::is_listed(two(s, 14)),
        Refusal::BadRes(14),
    );
    let r = field(
        s,
        r,
        16,
        4,
        (1 <= width) & (width <= 32768),
        Refusal::BadWidth(16),
    );
    field(s, r, 20, 2, stands_at(s, 20, &EOI), Refusal::BadMark(20))
}

// After a start that is fine the width is below 65,536, and nothing is cut off.
pub fn head_at(s: &[u8]) -> Head
    ensures { result ≡ head_at s.now }
{
    Head {
        rules: Rules {
            version: Version::Base,
            mode: Mode::One,
        },
        mask: octet(s, 12),
        image: octet(s, 13),
        main: two(s, 14),
        width: (four(s, 16) % 65536) as u16,
    }
}
