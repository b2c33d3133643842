// A line of pixels of a picture whose plane list is a lent slice of structs.
#![tactic(auto)]

ghost use Rattle.pixel_rules.specs.Planes.{whole_list};
ghost use Rattle.picture_rules.specs.Line.{Lines};

use answers::Answer;
use pixel_rules::Plane;
use sheet_rules::Colour;

pub fn line_of_planes(
    sheet: &[u8],
    planes: &[Plane],
    samples: &[u8],
    stripe: u32,
    line: u32,
    unseen: Colour,
    out: &mut [u8],
) -> Answer
    ensures { Lines sheet.now (whole_list planes.now) samples.now stripe line unseen out.old result out.new }
{
    let t = line_slice::gather_planes(planes);
    line_compose::compose_line(sheet, t, false, samples, stripe, line, unseen, out)
}
