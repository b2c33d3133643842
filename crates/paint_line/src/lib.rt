// A row of pixels painted, part by part: nothing is known of a part, or one layer shows all along, or it is painted piece by piece, by its layers or by its
// pixels' floors.
#![tactic(auto)]

ghost use Rattle.std.specs.Prelude.{◌≡◌, false, ◌+◌, ◌-◌, ◌*◌, ◌<◌, ◌≤◌, length, None};
ghost use Rattle.octets.specs.Octets.{put_at};
ghost use Rattle.pixel_rules.specs.declared.MainPos.{MainPos};
ghost use Rattle.pixel_rules.specs.Decide.{decide};
ghost use Rattle.picture_rules.specs.Line.{four_of, pixels};
ghost use Rattle.line_pixel.specs.Rows.{row_stack, RowsFit};
ghost use Rattle.paint_words.specs.Words.{octets_of};
ghost use Rattle.paint_coat.specs.Coat.{Coated};
ghost use Rattle.paint_floor.specs.Floors.{PlainRows, Sure, Starts};
ghost use Rattle.paint_layers.specs.Layers.{decided};
ghost use Rattle.paint_line.specs.Painted.{MasksTold};

use line_fetch::Row;
use paint_gather::{FLOORS, TABLE};
use sheet_rules::Colour;

// So many pixels a piece has at most.
pub const PART: usize = 1536;

// The octets of a mask's samples in a piece: whole samples, of which two may lie in it in part.
pub const BITS: usize = PART + 24;

// The octets of a row of 512 pixels.
pub const ROW: usize = 2048;

// The pixels a up to b, whose floors are known, and the masks above them too: what the floors give.
fn show_part(
    out: &mut [u8],
    sel: &[u8],
    row: &mut [u8],
    t: &mut [usize],
    lit: &mut [u8],
    s: &[u8],
    d: &[u8],
    rows: &[usize],
    pairs: usize,
    f: usize,
    a: usize,
    b: usize,
    unseen: Colour,
    u: u32,
)
    requires { RowsFit s.now d.now rows.now pairs × PlainRows rows.now pairs × Sure s.now d.now rows.now f a (b - a) pairs sel.now × MasksTold rows.now f pairs
        × (f ≤ pairs) × (pairs ≤ 7) × (a ≤ b) × (b < 65536) × (b * 4 ≤ length out.old) × (2048 ≤ length row.old) × (octets_of u ≡ four_of unseen None) × (192 ≤ length t.old) × (16 ≤ length lit.old) }
    ensures { Coated (decided unseen s.now d.now rows.now pairs) out.old a b out.new }
{
    let each = paint_table::sample_size(s, d, rows, pairs, f);
    let step = paint_table::make_table(t, lit, s, d, rows, pairs, f, each, a, b);
    paint_show::show_floors(
        out, sel, row, t, lit, s, d, rows, pairs, f, step, each, a, b, u,
    );
}

// Layer by layer where some mask was not read, and, since it is faster, for few pixels and for few pairs; by floors where all masks were read, and many.
fn few_layers(
    s: &[u8],
    d: &[u8],
    rows: &[usize],
    pairs: usize,
    f: usize,
    a: usize,
    b: usize,
) -> bool
    requires { RowsFit s.now d.now rows.now pairs × (f ≤ pairs) × (pairs ≤ 7) × (a ≤ b) }
    ensures { result ≡ false → MasksTold rows.now f pairs }
{
    if pairs - f <= 2 {
        return true;
    }
    if b - a < 64 {
        return true;
    }
    for j in f + 1..=pairs {
        let m = line_fetch::row_at(rows, j * 2);
        if (m.read == 0) & (m.from.0 < m.to.0) {
            return true;
        }
    }
    false
}

// The pixels a up to b, as many as the scratch has room for at most; pair f shows its image layer over them.
fn paint_piece(
    out: &mut [u8],
    sel: &mut [u8],
    bits: &mut [u8],
    row: &mut [u8],
    t: &mut [usize],
    lit: &mut [u8],
    s: &[u8],
    d: &[u8],
    rows: &[usize],
    pairs: usize,
    f: usize,
    a: usize,
    b: usize,
    unseen: Colour,
    u: u32,
)
    requires { RowsFit s.now d.now rows.now pairs × PlainRows rows.now pairs × Starts s.now d.now rows.now pairs a b f × (f < pairs) × (pairs ≤ 7) × (a < b) × (b < 65536) × (b * 4 ≤ length out.old) × (b - a ≤ length sel.old)
        × (b - a + 24 ≤ length bits.old) × (2048 ≤ length row.old) × (octets_of u ≡ four_of unseen None) × (192 ≤ length t.old) × (16 ≤ length lit.old) }
    ensures { Coated (decided unseen s.now d.now rows.now pairs) out.old a b out.new }
{
    if few_layers(s, d, rows, pairs, f, a, b) {
        paint_lit::lay_lit(out, sel, row, bits, s, d, rows, pairs, f, a, b, unseen, u);
        return;
    }
    paint_floor::put_floors(sel, bits, s, d, rows, pairs, f, a, b);
    show_part(out, sel, row, t, lit, s, d, rows, pairs, f, a, b, unseen, u);
}

// A part piece by piece.
fn paint_pieces(
    out: &mut [u8],
    sel: &mut [u8],
    bits: &mut [u8],
    row: &mut [u8],
    t: &mut [usize],
    lit: &mut [u8],
    s: &[u8],
    d: &[u8],
    rows: &[usize],
    pairs: usize,
    f: usize,
    a: usize,
    b: usize,
    unseen: Colour,
    u: u32,
)
    requires { RowsFit s.now d.now rows.now pairs × PlainRows rows.now pairs × Starts s.now d.now rows.now pairs a b f × (f < pairs) × (pairs ≤ 7) × (a ≤ b) × (b < 65536) × (b * 4 ≤ length out.old) × (1536 ≤ length sel.old)
        × (1560 ≤ length bits.old) × (2048 ≤ length row.old) × (octets_of u ≡ four_of unseen None) × (192 ≤ length t.old) × (16 ≤ length lit.old) }
    ensures { Coated (decided unseen s.now d.now rows.now pairs) out.old a b out.new }
{
    let mut x = a;
    while x < b {
        let e = paint_image::within(x + PART, x, b);
        paint_piece(
            out, sel, bits, row, t, lit, s, d, rows, pairs, f, x, e, unseen, u,
        );
        x = e;
    }
}

// The pixels a up to b: where one layer shows all along, or nothing can be known, no mask is looked at.
fn paint_part(
    out: &mut [u8],
    sel: &mut [u8],
    bits: &mut [u8],
    row: &mut [u8],
    t: &mut [usize],
    lit: &mut [u8],
    s: &[u8],
    d: &[u8],
    rows: &[usize],
    pairs: usize,
    a: usize,
    b: usize,
    unseen: Colour,
    u: u32,
)
    requires { RowsFit s.now d.now rows.now pairs × PlainRows rows.now pairs × (pairs ≤ 7) × (a ≤ b) × (b < 65536) × (b * 4 ≤ length out.old) × (1536 ≤ length sel.old)
        × (1560 ≤ length bits.old) × (2048 ≤ length row.old) × (octets_of u ≡ four_of unseen None) × (192 ≤ length t.old) × (16 ≤ length lit.old) }
    ensures { Coated (decided unseen s.now d.now rows.now pairs) out.old a b out.new }
{
    let f = paint_floor::first_pair(s, d, rows, pairs, a, b);
    if paint_dark::all_dark(s, d, rows, pairs, f, a, b) {
        paint_coat::lay_flat(out, a, b, u);
        return;
    }
    if f == pairs {
        paint_show::lay_floor(out, a, s, d, rows, pairs, f as u8, a, b, u);
        return;
    }
    paint_pieces(
        out, sel, bits, row, t, lit, s, d, rows, pairs, f, a, b, unseen, u,
    );
}

// A place that lies between two, or else the second.
fn cut(x: usize, a: usize, b: usize) -> usize
    requires { a < b }
    ensures { (a < result) × (result ≤ b) }
{
    if x <= a {
        return b;
    }
    if b <= x {
        return b;
    }
    x
}

// Neither layer was read, and both reach up to b: from where both have begun, nothing below them shows.
fn veils(m: Row, r: Row, b: usize) -> bool {
    (m.read == 0) & (r.read == 0) & (b <= m.to.0) & (b <= r.to.0)
}

// Pixels of a margin that is not worth two parts.
const NARROW: usize = 64;

// Of the two places where all below a pair is hidden and where the layers above it have begun, the nearer one; but the farther one of a narrow margin,
// since a part has its own cost.
fn margin_end(hid: usize, left: usize, right: usize, a: usize, b: usize) -> usize
    requires { (a ≤ hid) × (hid ≤ b) × (a < b) × (a < right) × (right ≤ b) }
    ensures { (a < result) × (result ≤ b) }
{
    let far = paint_image::within(left, hid, b);
    if far - a <= NARROW {
        return cut(far, a, right);
    }
    cut(hid, a, cut(left, a, right))
}

// Where a part that begins at pixel a ends: before a pair of which nothing was read, which hides all below it; else where all layers above such a pair
// that begin behind a have begun, or where the first of them ends. So there is one part in which every layer that shows reaches from end to end.
fn part_end(s: &[u8], d: &[u8], rows: &[usize], pairs: usize, a: usize, b: usize) -> usize
    requires { RowsFit s.now d.now rows.now pairs × (pairs ≤ 7) × (a < b) }
    ensures { (a < result) × (result ≤ b) }
{
    let mut left = a;
    let mut right = b;
    for j in (1..=pairs).rev() {
        let m = line_fetch::row_at(rows, j * 2);
        let r = line_fetch::row_at(rows, j * 2 + 1);
        if veils(m, r, b) {
            let c = paint_image::within(m.from.0, a, b);
            let hid = paint_image::within(r.from.0, c, b);
            return margin_end(hid, left, right, a, b);
        }
        left = paint_image::within(m.from.0, left, b);
        right = cut(m.to.0, a, right);
        left = paint_image::within(r.from.0, left, b);
        right = cut(r.to.0, a, right);
    }
    let r = line_fetch::row_at(rows, 1);
    left = paint_image::within(r.from.0, left, b);
    right = cut(r.to.0, a, right);
    cut(left, a, right)
}

// The whole row. What it works with is lent, since to clear it for every line would take as long as a cheap line: the floors of a piece, a mask's samples
// there, a row of 512 pixels, and the table of places with the floors that are in it. Five slices, not one struct: callers lend what they have, whatever
// its length, if it is long enough.
pub fn paint_line(
    out: &mut [u8],
    sel: &mut [u8],
    bits: &mut [u8],
    row: &mut [u8],
    t: &mut [usize],
    lit: &mut [u8],
    s: &[u8],
    d: &[u8],
    rows: &[usize],
    pairs: usize,
    width: usize,
    unseen: Colour,
)
    requires { RowsFit s.now d.now rows.now pairs × PlainRows rows.now pairs × (pairs ≤ 7) × (width * 4 ≤ length out.old) × (width < 65536)
        × (1536 ≤ length sel.old) × (1560 ≤ length bits.old) × (2048 ≤ length row.old) × (192 ≤ length t.old) × (16 ≤ length lit.old) }
    ensures { out.new ≡ put_at out.old 0 (pixels unseen (λ (x : MainPos). decide (row_stack s.now d.now rows.now x) pairs) width) }
{
    let u = paint_words::word_of(unseen.c0, unseen.c1, unseen.c2, 0);
    let mut x = 0;
    while x < width {
        let e = part_end(s, d, rows, pairs, x, width);
        paint_part(
            out, sel, bits, row, t, lit, s, d, rows, pairs, x, e, unseen, u,
        );
        x = e;
    }
}

// A line by itself: fewer pixels than this take less time one by one than the scratch of a painted row.
const FEW: usize = 64;

pub fn draw_line(
    out: &mut [u8],
    s: &[u8],
    d: &[u8],
    rows: &[usize],
    pairs: usize,
    width: usize,
    unseen: Colour,
)
    requires { RowsFit s.now d.now rows.now pairs × PlainRows rows.now pairs × (pairs ≤ 7) × (width * 4 ≤ length out.old) × (width < 65536) }
    ensures { out.new ≡ put_at out.old 0 (pixels unseen (λ (x : MainPos). decide (row_stack s.now d.now rows.now x) pairs) width) }
{
    if width < FEW {
        line_put::put_pixels(out, s, d, rows, pairs, width, unseen);
        return;
    }
    let mut sel: [u8; PART] = [0; PART];
    let mut bits: [u8; BITS] = [0; BITS];
    let mut row: [u8; ROW] = [0; ROW];
    let mut t: [usize; TABLE] = [0; TABLE];
    let mut lit: [u8; FLOORS] = [0; FLOORS];
    paint_line(
        out, &mut sel, &mut bits, &mut row, &mut t, &mut lit, s, d, rows, pairs, width, unseen,
    );
}
