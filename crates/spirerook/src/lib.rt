// The calls that a viewer in C links (include/spirerook.h). Each is thin: it calls the library's function and reports its answer.
#![tactic(auto)]

ghost use Rattle.call_rules.specs.Calls.{JudgeCall, ReadCall, WriteCall, LineUnseenCall, LineCall, BandCall, DataCall};

use answers_report::Report;
use data_report::DataReport;
use sheet_rules::Colour;

#[unsafe(no_mangle)]
pub extern "C" fn spirerook_judge(sheet: &[u8]) -> Report
    ensures { JudgeCall sheet.now result }
{
    Report::from(sheet_judge::sheet_answer(sheet))
}

#[unsafe(no_mangle)]
pub extern "C" fn spirerook_read(page: &[u8], sheet: &mut [u8]) -> Report
    ensures { ReadCall page.now sheet.old result sheet.new }
{
    Report::from(read_page::read_page(page, sheet))
}

#[unsafe(no_mangle)]
pub extern "C" fn spirerook_write(sheet: &[u8], data: &[u8], page: &mut [u8]) -> Report
    ensures { WriteCall sheet.now «data».now page.old result page.new }
{
    Report::from(write_page::write_page(sheet, data, page))
}

#[unsafe(no_mangle)]
pub extern "C" fn spirerook_line(
    sheet: &[u8],
    planes: &[u8],
    samples: &[u8],
    stripe: u32,
    line: u32,
    out: &mut [u8],
) -> Report
    ensures { LineCall sheet.now planes.now samples.now stripe line out.old result out.new }
{
    let unseen = line_put::grey();
    Report::from(line_compose::line_of(sheet, planes, samples, stripe, line, unseen, out))
}

// The same, for those who choose the colour of unseen pixels.
#[unsafe(no_mangle)]
pub extern "C" fn spirerook_line_unseen(
    sheet: &[u8],
    planes: &[u8],
    samples: &[u8],
    stripe: u32,
    line: u32,
    u0: u8,
    u1: u8,
    u2: u8,
    out: &mut [u8],
) -> Report
    ensures { LineUnseenCall sheet.now planes.now samples.now stripe line (record { c0 = u0; c1 = u1; c2 = u2 }) out.old result out.new }
{
    let unseen = Colour {
        c0: u0,
        c1: u1,
        c2: u2,
    };
    Report::from(line_compose::line_of(sheet, planes, samples, stripe, line, unseen, out))
}

// All lines of a stripe, one behind the other.
#[unsafe(no_mangle)]
pub extern "C" fn spirerook_band(
    sheet: &[u8],
    planes: &[u8],
    samples: &[u8],
    stripe: u32,
    u0: u8,
    u1: u8,
    u2: u8,
    out: &mut [u8],
) -> Report
    ensures { BandCall sheet.now planes.now samples.now stripe (record { c0 = u0; c1 = u1; c2 = u2 }) out.old result out.new }
{
    let unseen = Colour {
        c0: u0,
        c1: u1,
        c2: u2,
    };
    Report::from(band_compose::band_of(sheet, planes, samples, stripe, unseen, out))
}

#[unsafe(no_mangle)]
pub extern "C" fn spirerook_data(
    sheet: &[u8],
    page: &[u8],
    pencil: &[u8],
    stripe: u32,
    layer: u32,
) -> DataReport
    ensures { DataCall sheet.now page.now pencil.now stripe layer result }
{
    DataReport::from(data_find::find_data(sheet, page, pencil, stripe, layer))
}
