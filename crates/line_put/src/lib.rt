// The octets of pixels, four each, put into a buffer; and the colour of unseen ones where the caller gives none.
#![tactic(auto)]

ghost use Rattle.std.specs.Prelude.{◌≡◌, ◌*◌, ◌+◌, ◌≤◌, length};
ghost use Rattle.octets.specs.Octets.{put_at};
ghost use Rattle.pixel_rules.specs.declared.MainPos.{MainPos};
ghost use Rattle.pixel_rules.specs.Decide.{decide};
ghost use Rattle.picture_rules.specs.Line.{unseen_grey, four_of, pixels};
ghost use Rattle.line_pixel.specs.Rows.{row_stack, RowsFit};

use pixel_rules::{MainPos, Sample};
use sheet_rules::Colour;

// Black looks like ink (02, 2026-01).
pub fn grey() -> Colour
    ensures { result ≡ unseen_grey }
{
    Colour {
        c0: 128,
        c1: 128,
        c2: 96,
    }
}

// The four octets of a pixel: the colour and 1, or the unseen colour and 0.
pub fn put_pixel(out: &mut [u8], at: usize, p: Sample, unseen: Colour)
    requires { at + 4 ≤ length out.old }
    ensures { out.new ≡ put_at out.old at (four_of unseen p) }
{
    match p {
        Some(c) => {
            out[at] = c.c0;
            out[at + 1] = c.c1;
            out[at + 2] = c.c2;
            out[at + 3] = 1;
        }
        None => {
            out[at] = unseen.c0;
            out[at + 1] = unseen.c1;
            out[at + 2] = unseen.c2;
            out[at + 3] = 0;
        }
    }
}

// The pixels of a line whose rows are worked out.
pub fn put_pixels(
    out: &mut [u8],
    s: &[u8],
    d: &[u8],
    rows: &[usize],
    pairs: usize,
    width: usize,
    unseen: Colour,
)
    requires { RowsFit s.now d.now rows.now pairs × (width * 4 ≤ length out.old) × (width ≤ 65536) }
    ensures { out.new ≡ put_at out.old 0 (pixels unseen (λ (x : MainPos). decide (row_stack s.now d.now rows.now x) pairs) width) }
{
    for x in 0..width {
        let p = line_pixel::pixel(s, d, rows, pairs, MainPos(x));
        put_pixel(out, x * 4, p, unseen);
    }
}
