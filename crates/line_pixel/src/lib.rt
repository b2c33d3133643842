// One pixel of a line, from the highest pair down (02, 2026-06): an image layer's sample is fetched only where it may show.
#![tactic(auto)]

ghost use Rattle.std.specs.Prelude.{◌≡◌, ◌+◌, ◌*◌, ◌<◌};
ghost use Rattle.pixel_rules.specs.Decide.{decide};
ghost use Rattle.pixel_rules.specs.Down.{candidates, MayShow};
ghost use Rattle.line_fetch.specs.Rows.{row_at, row_image};
ghost use Rattle.line_pixel.specs.Rows.{row_masks, row_stack, MasksFit, RowsFit};
ghost use Rattle.line_pixel.specs.Lead.{way_from};

use pixel_rules::{MainPos, Mask, Sample};

// An image layer that may show, by its pair; pair 0 is layer 1. It is sure where its mask is known to be 1, or it has none: nothing below it shows then.
#[derive(Clone, Copy)]
pub struct Candidate {
    pub pair: usize,
    pub sure: bool,
}

// The first candidate from a pair down: masks known to be 0 are passed.
pub fn candidate_from(d: &[u8], rows: &[usize], from: usize, x: MainPos) -> Candidate
    requires { MasksFit d.now rows.now from × (x.0 < 65536) }
    ensures { candidates (row_masks d.now rows.now x) from ≡ way_from (row_masks d.now rows.now x) result }
{
    for j in (1..=from).rev() {
        let m = line_fetch::mask_at(d, line_fetch::row_at(rows, j * 2), x);
        match m {
            Mask::Zero => {}
            Mask::One => {
                return Candidate {
                    pair: j,
                    sure: true,
                };
            }
            Mask::Hidden => {
                return Candidate {
                    pair: j,
                    sure: false,
                };
            }
        }
    }
    Candidate {
        pair: 0,
        sure: true,
    }
}

// The sample of pair j's image layer, for which only those may ask where it may show: `pairs` is there to say so.
pub fn image_of(s: &[u8], d: &[u8], rows: &[usize], pairs: usize, j: usize, x: MainPos) -> Sample
    requires { RowsFit s.now d.now rows.now pairs × MayShow (row_masks d.now rows.now x) pairs j × (x.0 < 65536) }
    ensures { result ≡ row_image s.now d.now (row_at rows.now (j * 2 + 1)) x }
{
    line_fetch::image_at(s, d, line_fetch::row_at(rows, j * 2 + 1), x)
}

// What pixel x shows: what all candidates down to the first sure one agree on. Where two differ, or one is not known, those below alter nothing.
pub fn pixel(s: &[u8], d: &[u8], rows: &[usize], pairs: usize, x: MainPos) -> Sample
    requires { RowsFit s.now d.now rows.now pairs × (x.0 < 65536) }
    ensures { result ≡ decide (row_stack s.now d.now rows.now x) pairs }
{
    let mut c = candidate_from(d, rows, pairs, x);
    let mut cur = image_of(s, d, rows, pairs, c.pair, x);
    while !c.sure & line_agree::is_known(cur) {
        c = candidate_from(d, rows, c.pair - 1, x);
        let up = image_of(s, d, rows, pairs, c.pair, x);
        cur = line_agree::agreed(cur, up);
    }
    cur
}
