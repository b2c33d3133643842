// A band of pixels, all lines of a stripe: the verdict, then the room, then line after line. So a refusal changes nothing that was lent.
#![tactic(auto)]

ghost use Rattle.std.specs.Prelude.{◌≡◌, ◌*◌, ◌<◌};
ghost use Rattle.pixel_rules.specs.Planes.{list_of};
ghost use Rattle.band_rules.specs.Band.{Bands};
ghost use Rattle.line_verdict.specs.Ruled.{list_from};
ghost use Rattle.line_compose.specs.Composing.{scene_from, Showable};
ghost use Rattle.band_compose.specs.Banding.{Banded};

use answers::{Answer, Refusal};
use line_planes::{Listing, PLANE_SIZE};
use sheet_rules::{Colour, Extent};

// Four octets a pixel, width by height.
pub fn band_size(width: usize, height: usize) -> usize
    requires { (width < 65536) × (height < 4294967296) }
    ensures { result ≡ width * height * 4 }
{
    width * height * 4
}

// A stripe that is to be shown: the room, then the lines.
pub fn show_band(
    sheet: &[u8],
    extent: Extent,
    list: Listing,
    samples: &[u8],
    unseen: Colour,
    out: &mut [u8],
) -> Answer
    requires { Showable (scene_from sheet.now extent list samples.now) 0 }
    ensures { Banded (scene_from sheet.now extent list samples.now) unseen out.old result out.new }
{
    let second = sheet_record::record_at(sheet, extent.first as usize + 1);
    let width = octets_get::wide16(second.width);
    let size = band_size(width, extent.height as usize);
    if out.len() < size {
        return Err(Refusal::NoRoom);
    }
    band_lines::put_lines(out, sheet, extent, list, samples, width, unseen);
    Ok(size as u64)
}

// A band of a stripe by its number, the plane list held by value. The stripe is ruled as its line 0 is.
pub fn compose_band(
    sheet: &[u8],
    list: Listing,
    part: bool,
    samples: &[u8],
    stripe: u32,
    unseen: Colour,
    out: &mut [u8],
) -> Answer
    ensures { Bands sheet.now (list_from list part) samples.now stripe unseen out.old result out.new }
{
    let extent = line_verdict::judge_line(sheet, list, part, samples, stripe, 0)?;
    show_band(sheet, extent, list, samples, unseen, out)
}

// The same for a plane list in octets, as C lends it.
pub fn band_of(
    sheet: &[u8],
    planes: &[u8],
    samples: &[u8],
    stripe: u32,
    unseen: Colour,
    out: &mut [u8],
) -> Answer
    ensures { Bands sheet.now (list_of planes.now) samples.now stripe unseen out.old result out.new }
{
    let list = line_planes::listing_of(planes);
    let part = planes.len() % PLANE_SIZE != 0;
    compose_band(sheet, list, part, samples, stripe, unseen, out)
}
