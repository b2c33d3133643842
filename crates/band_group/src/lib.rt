// Lines of a band that differ in layer 2 alone: the first two are painted as if it were 0 all along, and 1, and each line is then mixed of these two by
// its own samples. So what all other layers show is painted twice, however many lines share it.
#![tactic(auto)]

ghost use Rattle.std.specs.Prelude.{◌≡◌, ◌+◌, ◌-◌, ◌*◌, ◌<◌, ◌≤◌, length};
ghost use Rattle.line_pixel.specs.Rows.{RowsFit};
ghost use Rattle.paint_coat.specs.Coat.{Coated, over};
ghost use Rattle.paint_floor.specs.Floors.{PlainRows};
ghost use Rattle.band_group.specs.Group.{bit_rows, row_four, group_four, mixed_four, part_four, BothPainted, Tail};

use sheet_rules::Colour;

// The n pixels of a line that begins at pixel `first`, by its rows.
pub fn paint_at(
    out: &mut [u8],
    first: usize,
    sel: &mut [u8],
    bits: &mut [u8],
    row: &mut [u8],
    t: &mut [usize],
    lit: &mut [u8],
    s: &[u8],
    d: &[u8],
    rows: &[usize],
    pairs: usize,
    n: usize,
    unseen: Colour,
)
    requires { RowsFit s.now d.now rows.now pairs × PlainRows rows.now pairs × (pairs ≤ 7) × (n < 65536) × ((first + n) * 4 ≤ length out.old) × (1536 ≤ length sel.old) × (1560 ≤ length bits.old) × (2048 ≤ length row.old) × (192 ≤ length t.old) × (16 ≤ length lit.old) }
    ensures { Coated (over (row_four unseen s.now d.now rows.now pairs first)) out.old first (first + n) out.new }
{
    let at = first * 4;
    paint_line::paint_line(
        &mut out[at..],
        sel,
        bits,
        row,
        t,
        lit,
        s,
        d,
        rows,
        pairs,
        n,
        unseen,
    );
}

// Layer 2 gives n all along.
fn give_bit(rows: &mut [usize], n: usize)
    requires { 14 ≤ length rows.old }
    ensures { rows.new ≡ bit_rows rows.old n }
{
    line_rows::put_row(rows, 2, line_rows::row_out(n));
}

// A line as if it did.
fn paint_bit(
    out: &mut [u8],
    first: usize,
    rows: &mut [usize],
    n: usize,
    sel: &mut [u8],
    bits: &mut [u8],
    row: &mut [u8],
    t: &mut [usize],
    lit: &mut [u8],
    s: &[u8],
    d: &[u8],
    pairs: usize,
    count: usize,
    unseen: Colour,
)
    requires { RowsFit s.now d.now rows.old pairs × PlainRows rows.old pairs × (1 ≤ pairs) × (pairs ≤ 7) × (count < 65536) × ((first + count) * 4 ≤ length out.old) × (1536 ≤ length sel.old) × (1560 ≤ length bits.old) × (2048 ≤ length row.old) × (192 ≤ length t.old) × (16 ≤ length lit.old) }
    ensures { Coated (over (row_four unseen s.now d.now (bit_rows rows.old n) pairs first)) out.old first (first + count) out.new
        × (rows.new ≡ bit_rows rows.old n) }
{
    give_bit(rows, n);
    paint_at(
        out, first, sel, bits, row, t, lit, s, d, rows, pairs, count, unseen,
    );
}

// The first two lines of a group, the second up to column c.
fn paint_both(
    out: &mut [u8],
    first: usize,
    rows: &mut [usize],
    sel: &mut [u8],
    bits: &mut [u8],
    row: &mut [u8],
    t: &mut [usize],
    lit: &mut [u8],
    s: &[u8],
    d: &[u8],
    pairs: usize,
    c: usize,
    width: usize,
    unseen: Colour,
)
    requires { RowsFit s.now d.now rows.old pairs × PlainRows rows.old pairs × (1 ≤ pairs) × (pairs ≤ 7) × (c ≤ width) × (width < 65536) × ((first + width + c) * 4 ≤ length out.old) × (1536 ≤ length sel.old) × (1560 ≤ length bits.old) × (2048 ≤ length row.old) × (192 ≤ length t.old) × (16 ≤ length lit.old) }
    ensures { BothPainted unseen s.now d.now rows.old pairs first width c out.old out.new }
{
    paint_bit(
        out, first, rows, 0, sel, bits, row, t, lit, s, d, pairs, width, unseen,
    );
    paint_bit(
        out,
        first + width,
        rows,
        1,
        sel,
        bits,
        row,
        t,
        lit,
        s,
        d,
        pairs,
        c,
        unseen,
    );
}

// From where on the lines are alike, since a pair above pair 1 of which nothing was read hides what lies below.
pub fn tail_of(s: &[u8], d: &[u8], rows: &[usize], pairs: usize, width: usize) -> usize
    requires { RowsFit s.now d.now rows.now pairs × (pairs ≤ 7) }
    ensures { (result ≤ width) × Tail rows.now pairs width result }
{
    for j in (2..=pairs).rev() {
        let m = line_fetch::row_at(rows, j * 2);
        let r = line_fetch::row_at(rows, j * 2 + 1);
        let c = paint_image::within(r.from.0, paint_image::within(m.from.0, 0, width), width);
        if paint_floor::covers(m, r, c, width) {
            return c;
        }
    }
    width
}

// A line behind the first two.
fn mix_one(out: &mut [u8], first: usize, at: usize, m: &[u8], c: usize, width: usize)
    requires { (first + 2 * width ≤ at) × (c ≤ width) × (c ≤ length m.now) × ((at + width) * 4 ≤ length out.old) }
    ensures { Coated (over (part_four out.old m.now first width c at)) out.old at (at + width) out.new }
{
    band_mix::mix_line(out, first, first + width, at, m, c);
    band_mix::copy_line(out, first + c, at + c, width - c);
}

// All lines behind the first two.
fn mix_rest(
    out: &mut [u8],
    first: usize,
    d: &[u8],
    at: usize,
    step: usize,
    c: usize,
    width: usize,
    g: usize,
)
    requires { (2 ≤ g) × (c ≤ width) × (width < 65536) × (at + g * step + width ≤ length d.now + step) × ((first + g * width) * 4 ≤ length out.old) }
    ensures { Coated (over (mixed_four out.old d.now at step first width c)) out.old (first + 2 * width) (first + g * width) out.new }
{
    for t in 2..g {
        let p = first + t * width;
        let i = at + t * step;
        mix_one(out, first, p, &d[i..], c, width);
    }
}

// All lines, the first two painted, the second up to column c.
fn mix_lines(
    out: &mut [u8],
    first: usize,
    d: &[u8],
    at: usize,
    step: usize,
    c: usize,
    width: usize,
    g: usize,
)
    requires { (2 ≤ g) × (c ≤ width) × (width < 65536) × (at + g * step + width ≤ length d.now + step) × ((first + g * width) * 4 ≤ length out.old) }
    ensures { Coated (over (mixed_four out.old d.now at step first width c)) out.old first (first + g * width) out.new }
{
    mix_rest(out, first, d, at, step, c, width, g);
    band_mix::copy_line(out, first + c, first + width + c, width - c);
    let next = at + step;
    band_mix::mix_two(out, first, first + width, &d[at..], &d[next..], c);
}

// g lines from pixel `first` on, whose rows are these but for that of layer 2, which has its samples from `at` on, a pixel each, and in each line `step`
// further on. The row of layer 2 is not kept.
pub fn put_group(
    out: &mut [u8],
    first: usize,
    rows: &mut [usize],
    sel: &mut [u8],
    bits: &mut [u8],
    row: &mut [u8],
    t: &mut [usize],
    lit: &mut [u8],
    s: &[u8],
    d: &[u8],
    pairs: usize,
    at: usize,
    step: usize,
    g: usize,
    width: usize,
    unseen: Colour,
)
    requires { RowsFit s.now d.now rows.old pairs × PlainRows rows.old pairs × (1 ≤ pairs) × (pairs ≤ 7) × (2 ≤ g) × (width < 65536) × (at + g * step + width ≤ length d.now + step) × ((first + g * width) * 4 ≤ length out.old) × (1536 ≤ length sel.old) × (1560 ≤ length bits.old) × (2048 ≤ length row.old) × (192 ≤ length t.old) × (16 ≤ length lit.old) }
    ensures { Coated (over (group_four unseen s.now d.now rows.old pairs at step first width)) out.old first (first + g * width) out.new }
{
    let c = tail_of(s, d, rows, pairs, width);
    paint_both(
        out, first, rows, sel, bits, row, t, lit, s, d, pairs, c, width, unseen,
    );
    mix_lines(out, first, d, at, step, c, width, g);
}
