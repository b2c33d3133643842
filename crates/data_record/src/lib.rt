// The part that a record names: which source holds it, and whether it is there whole.
#![tactic(auto)]

ghost use Rattle.std.specs.Prelude.{◌≡◌, ◌+◌, ◌<◌, ◌/◌, length, ltb};
ghost use Rattle.sheet_rules.specs.Record.{record_size, record_at};
ghost use Rattle.data_rules.specs.Data.{source_of, octets_in, part_in, record_found};

use answers::Refusal;
use data_rules::{Part, Source};
use sheet_rules::Record;

#[tactic(auto, unfolding(data_rules::specs::Data::source_of))]
pub fn source_of(layer: u32) -> Source
    ensures { result ≡ source_of layer }
{
    if layer <= 3 {
        Source::Page
    } else {
        Source::Pencil
    }
}

// How many octets the source of a layer has.
#[tactic(auto, unfolding(data_rules::specs::Data::octets_in))]
fn source_len(page: &[u8], pencil: &[u8], layer: u32) -> usize
    ensures { result ≡ length (octets_in page.now pencil.now (source_of layer)) }
{
    match source_of(layer) {
        Source::Page => page.len(),
        Source::Pencil => pencil.len(),
    }
}

// The part that a record names; an uncoded layer's is empty.
#[tactic(auto, unfolding(data_rules::specs::Data::part_in))]
pub fn part_in(layer: u32, r: Record) -> Part
    ensures { result ≡ part_in layer r }
{
    if r.len == 0 {
        return Part {
            source: Source::Page,
            start: 0,
            len: 0,
        };
    }
    Part {
        source: source_of(layer),
        start: r.start,
        len: r.len,
    }
}

// The record's data pass the end of what holds them. The sum is made in 64 bits, where it cannot wrap.
fn data_passes(page: &[u8], pencil: &[u8], layer: u32, r: Record) -> bool
    ensures { result ≡ ltb (length (octets_in page.now pencil.now (source_of layer))) (r.start + r.len) }
{
    (source_len(page, pencil, layer) as u64) < octets_get::end_of(r.start, r.len)
}

// The record of a layer: its data are there whole, or it is at fault.
#[tactic(auto, unfolding(data_rules::specs::Data::record_found))]
pub fn find_record(
    sheet: &[u8],
    page: &[u8],
    pencil: &[u8],
    layer: u32,
    i: usize,
) -> Result<Part, Refusal>
    requires { (i < length sheet.now / record_size) × (i < 4294967296) }
    ensures { result ≡ record_found page.now pencil.now layer i (record_at sheet.now i) }
{
    let r = sheet_record::record_at(sheet, i);
    if data_passes(page, pencil, layer, r) {
        return Err(Refusal::Short(i as u32));
    }
    Ok(part_in(layer, r))
}
