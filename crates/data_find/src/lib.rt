// Coded data handed out: where a layer's data stand, or the refusal; and the part itself, which is never a copy.
#![tactic(auto)]

ghost use Rattle.std.specs.Prelude.{◌≡◌, ◌+◌, ◌≤◌, length};
ghost use Rattle.data_rules.specs.Data.{found_of};
ghost use Rattle.data_find.specs.Handed.{PartAt, HandsPart};

use answers::Refusal;
use data_rules::{Part, Source};

// Where the coded data of a layer of a stripe stand, or the refusal: the sheet before the stripe, and the stripe before the layer.
#[tactic(auto, unfolding(data_rules::specs::Data::found_of))]
pub fn find_data(
    sheet: &[u8],
    page: &[u8],
    pencil: &[u8],
    stripe: u32,
    layer: u32,
) -> Result<Part, Refusal>
    ensures { result ≡ found_of sheet.now page.now pencil.now stripe layer }
{
    // not by map_err: its closure would ask that the record's number fits, which is known here alone
    if let Err(record) = sheet_judge::judge(sheet) {
        return Err(Refusal::BadSheet(record as u32));
    }
    let extent = sheet_table::find_stripe(sheet, stripe as usize).ok_or(Refusal::BadLine)?;
    let i = sheet_table::find_layer(extent, layer as usize).ok_or(Refusal::BadLine)?;
    data_record::find_record(sheet, page, pencil, layer, i)
}

// So many octets of a slice from a place on, where they lie.
fn octets_from(s: &[u8], start: u32, len: u32) -> &[u8]
    requires { start + len ≤ length s.now }
    ensures { PartAt s.entry start len result }
{
    let start = start as usize;
    &s[start..start + len as usize]
}

// The part itself: a part of the page or of the pencil file, chosen by the layer's number. Nothing is copied.
pub fn data_part<'a>(
    sheet: &[u8],
    page: &'a [u8],
    pencil: &'a [u8],
    stripe: u32,
    layer: u32,
) -> &'a [u8]
    ensures { HandsPart sheet.now page.entry pencil.entry stripe layer result }
{
    let Ok(p) = find_data(sheet, page, pencil, stripe, layer) else {
        return octets_from(page, 0, 0);
    };
    match p.source {
        Source::Page => octets_from(page, p.start, p.len),
        Source::Pencil => octets_from(pencil, p.start, p.len),
    }
}
