// A layer's sample at a pixel, fetched from the layer's row.
#![tactic(auto)]

ghost use Rattle.std.specs.Prelude.{◌≡◌, ◌*◌, ◌≤◌, ◌<◌, length};
ghost use Rattle.line_fetch.specs.Rows.{row_size, row_at, row_mask, row_image, MaskFits, ImageFits};

use pixel_rules::{MainPos, Mask, Sample};

// How many numbers a row has among the rows of a line.
pub const ROW_SIZE: usize = 7;

// The numbers of the rows of 15 layers, as many as a stripe has at most.
pub const ROWS_SIZE: usize = 15 * ROW_SIZE;

// A layer in one line of the picture, worked out once a line: its main pixels `from` up to `to`, and the factor that divides by how many of them a
// sample has; the octets a sample if it was read (0: it was not), and where the line's samples then start; what it gives elsewhere: a mask its value,
// an image layer the place of its base colour in the sheet; and last, since a pixel does not ask for it, how many main pixels a sample has.
#[derive(Clone, Copy)]
pub struct Row {
    pub from: MainPos,
    pub to: MainPos,
    pub factor: usize,
    pub read: usize,
    pub at: usize,
    pub other: usize,
    pub ratio: usize,
}

// The row of layer l. The rows stand flat in one lent slice, from layer 1 on: a struct of arrays by value would be copied for every pixel.
pub fn row_at(rows: &[usize], l: usize) -> Row
    requires { (1 ≤ l) × (l * row_size ≤ length rows.now) }
    ensures { result ≡ row_at rows.now l }
{
    let b = (l - 1) * ROW_SIZE;
    Row {
        from: MainPos(rows[b]),
        to: MainPos(rows[b + 1]),
        factor: rows[b + 2],
        read: rows[b + 3],
        at: rows[b + 4],
        other: rows[b + 5],
        ratio: rows[b + 6],
    }
}

pub fn mask_at(d: &[u8], r: Row, x: MainPos) -> Mask
    requires { MaskFits d.now r × (x.0 < 65536) }
    ensures { result ≡ row_mask d.now r x }
{
    if x.0 < r.from.0 {
        return line_sample::other_bit(r.other);
    }
    if r.to.0 <= x.0 {
        return line_sample::other_bit(r.other);
    }
    if r.read == 0 {
        return Mask::Hidden;
    }
    let p = line_sample::scale_pos(r.ratio, r.factor, r.from, x);
    line_sample::bit_at(d, r.at, p)
}

pub fn image_at(s: &[u8], d: &[u8], r: Row, x: MainPos) -> Sample
    requires { ImageFits s.now d.now r × (x.0 < 65536) }
    ensures { result ≡ row_image s.now d.now r x }
{
    if x.0 < r.from.0 {
        return Some(line_sample::colour_at(s, r.other));
    }
    if r.to.0 <= x.0 {
        return Some(line_sample::colour_at(s, r.other));
    }
    if r.read == 0 {
        return None;
    }
    let p = line_sample::scale_pos(r.ratio, r.factor, r.from, x);
    Some(line_sample::image_colour(d, r.at, r.read, p))
}
