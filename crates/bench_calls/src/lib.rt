// What the benchmark calls from C: the judge and the search for a stripe, each answer packed into one number.
//
// The packing asks for no bound, since every part is cut to sixteen bits. Nothing is lost by that for a verdict: a sheet of more than 960
// records is refused at one of the first 961. Nor is it for a stripe of a good sheet, whose heights add up to at most 65,535.
#![tactic(auto)]

ghost use Rattle.std.specs.Prelude.{◌<◌};

use sheet_rules::Counts;

// No good verdict has this bit.
const REFUSED: u64 = 4294967296;

// The low sixteen bits, with the bound that the sums of parts need.
fn low16(x: u64) -> u64
    ensures { result < 65536 }
{
    x % 65536
}

// Records and stripes of a good sheet, or the mark and the record at fault.
#[unsafe(no_mangle)]
pub extern "C" fn bench_judge(sheet: &[u8]) -> u64 {
    match sheet_judge::judge(sheet) {
        Ok(Counts { records, stripes }) => low16(records as u64) * 65536 + low16(stripes as u64),
        Err(record) => REFUSED + low16(record as u64),
    }
}

// First record, layers, top and height of stripe k, or 0 where there is none: a stripe has a layer.
#[unsafe(no_mangle)]
pub extern "C" fn bench_find_stripe(sheet: &[u8], k: u32) -> u64 {
    match sheet_table::find_stripe(sheet, k as usize) {
        Some(extent) => {
            let upper = low16(extent.first as u64) * 65536 + low16(extent.layers as u64);
            let lower = low16(extent.top as u64) * 65536 + low16(extent.height as u64);
            upper * 4294967296 + lower
        }
        None => 0,
    }
}
