// A line of pixels: the verdict, then the room, then the line. So a refusal changes nothing that was lent.
#![tactic(auto)]

ghost use Rattle.pixel_rules.specs.Planes.{list_of};
ghost use Rattle.picture_rules.specs.Line.{Lines};
ghost use Rattle.line_verdict.specs.Ruled.{list_from};
ghost use Rattle.line_compose.specs.Composing.{scene_from, Showable, Composed};

use answers::{Answer, Refusal};
use line_fetch::ROWS_SIZE;
use line_planes::{Listing, PLANE_SIZE};
use pixel_rules::MainPos;
use sheet_rules::{Colour, Extent};

// A line of a stripe that is to be shown: the room, then the line.
pub fn show_line(
    sheet: &[u8],
    extent: Extent,
    list: Listing,
    samples: &[u8],
    y: u32,
    unseen: Colour,
    out: &mut [u8],
) -> Answer
    requires { Showable (scene_from sheet.now extent list samples.now) y }
    ensures { Composed (scene_from sheet.now extent list samples.now) y unseen out.old result out.new }
{
    let second = sheet_record::record_at(sheet, extent.first as usize + 1);
    let width = octets_get::wide16(second.width);
    if out.len() < width * 4 {
        return Err(Refusal::NoRoom);
    }
    let mut rows: [usize; ROWS_SIZE] = [0; ROWS_SIZE];
    line_rows::put_rows(&mut rows, sheet, extent, list, MainPos(y as usize));
    paint_line::draw_line(
        out,
        sheet,
        samples,
        &rows,
        extent.layers as usize / 2,
        width,
        unseen,
    );
    Ok(width as u64 * 4)
}

// A line of stripe and line number, the plane list held by value.
pub fn compose_line(
    sheet: &[u8],
    list: Listing,
    part: bool,
    samples: &[u8],
    stripe: u32,
    y: u32,
    unseen: Colour,
    out: &mut [u8],
) -> Answer
    ensures { Lines sheet.now (list_from list part) samples.now stripe y unseen out.old result out.new }
{
    // no `?`: the refusal stands here, so that a program with another one in its place is refused for that
    match line_verdict::judge_line(sheet, list, part, samples, stripe, y) {
        Err(r) => Err(r),
        Ok(extent) => show_line(sheet, extent, list, samples, y, unseen, out),
    }
}

// The same for a plane list in octets, as C lends it.
pub fn line_of(
    sheet: &[u8],
    planes: &[u8],
    samples: &[u8],
    stripe: u32,
    y: u32,
    unseen: Colour,
    out: &mut [u8],
) -> Answer
    ensures { Lines sheet.now (list_of planes.now) samples.now stripe y unseen out.old result out.new }
{
    let list = line_planes::listing_of(planes);
    let part = planes.len() % PLANE_SIZE != 0;
    compose_line(sheet, list, part, samples, stripe, y, unseen, out)
}
