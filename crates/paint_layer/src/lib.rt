// One pair over a part of a row that is painted up to the pair below it: its image layer shows where its mask is 1, or has to agree where the mask was
// not read. Loops without a branch, four pixels at a time.
#![tactic(auto)]

ghost use Rattle.std.specs.Prelude.{◌≡◌, ℕ, true, ◌+◌, ◌-◌, ◌*◌, ◌<◌, ◌≤◌, List, length};
ghost use Rattle.line_fetch.specs.Rows.{ImageFits};
ghost use Rattle.paint_words.specs.Words.{octets_of};
ghost use Rattle.paint_coat.specs.Coat.{Coated, over, flat, chosen_by, kept};
ghost use Rattle.paint_image.specs.Image.{image_from, Plain, Beside};
ghost use Rattle.paint_choice.specs.Choice.{bits_from, MaskPart};
ghost use Rattle.paint_layer.specs.Layer.{mask_at, agrees, Ruled, Span, Dark};

use line_fetch::Row;

// n pixels from a on, each made of what stands there, by a rule that is told which of them it is.
fn coat_by<F: Fn(usize, u32) -> u32>(out: &mut [u8], a: usize, n: usize, rule: F)
    requires room { (a + n) * 4 ≤ length out.old }
    requires may { (x w : ℕ) → x < n → F.pre rule x w }
    ensures { (f : ℕ → List ℕ → List ℕ) → ((x w k : ℕ) → x < n → F.post rule x w k → octets_of k ≡ f (a + x) (octets_of w)) → Coated f out.old a (a + n) out.new }
{
    for x in 0..n {
        let at = (a + x) * 4;
        let w = paint_words::word(out, at);
        paint_words::put_word(out, at, rule(x, w));
    }
}

// ---- an image layer from pixel x up to y

// It has a sample of three octets at each of the pixels, and another octet behind the last.
fn spans_three(s: &[u8], d: &[u8], r: Row, x: usize, y: usize) -> bool
    requires { ImageFits s.now d.now r × (x < y) }
    ensures { result ≡ true → Span d.now r x y }
{
    if r.read != 3 {
        return false;
    }
    if r.ratio != 1 {
        return false;
    }
    if x < r.from.0 {
        return false;
    }
    if r.to.0 < y {
        return false;
    }
    r.at + (y - 1 - r.from.0) * 3 + 3 < d.len()
}

// It was not read, and has all of them in its area.
fn spans_dark(r: Row, x: usize, y: usize) -> bool
    ensures { result ≡ true → Dark r x y }
{
    if r.read != 0 {
        return false;
    }
    if x < r.from.0 {
        return false;
    }
    y <= r.to.0
}

// None of the pixels is in its area: it shows its base colour.
fn spans_base(r: Row, x: usize, y: usize) -> bool
    ensures { result ≡ true → Beside r x y }
{
    (y <= r.from.0) | (r.to.0 <= x)
}

// So many pixels are laid into a row of their own at a time.
const STEP: usize = 512;

// The image layer's pixels by a rule, laid into a row of their own first.
fn coat_laid<F: Fn(usize, u32, u32) -> u32>(
    out: &mut [u8],
    row: &mut [u8],
    s: &[u8],
    d: &[u8],
    r: Row,
    x: usize,
    y: usize,
    u: u32,
    rule: &F,
)
    requires fits { ImageFits s.now d.now r × Plain r × (x ≤ y) × (y < 65536) × (y * 4 ≤ length out.old) × (2048 ≤ length row.old) }
    requires may { (i w v : ℕ) → i < y - x → F.pre rule.now i w v }
    ensures { (f : ℕ → List ℕ → List ℕ) → Ruled f (image_from (octets_of u) s.now d.now r) (F.post rule.now) x y → Coated f out.old x y out.new }
{
    let mut p = x;
    while p < y {
        let e = p + (y - p).min(STEP);
        paint_image::lay_image(row, 0, s, d, r, p, e, u);
        let at = p - x;
        coat_by(
            out,
            p,
            e - p,
            |i, low| rule(at + i, low, paint_words::word(row, i * 4)),
        );
        p = e;
    }
}

// Fetched at once where they are of one kind all along. The closures that hand one colour on say what they ask: what is inferred of them is that the rule
// serves any pixel.
fn coat_image<F: Fn(usize, u32, u32) -> u32>(
    out: &mut [u8],
    row: &mut [u8],
    s: &[u8],
    d: &[u8],
    r: Row,
    x: usize,
    y: usize,
    u: u32,
    rule: &F,
)
    requires fits { ImageFits s.now d.now r × Plain r × (x < y) × (y < 65536) × (y * 4 ≤ length out.old) × (2048 ≤ length row.old) }
    requires may { (i w v : ℕ) → i < y - x → F.pre rule.now i w v }
    ensures { (f : ℕ → List ℕ → List ℕ) → Ruled f (image_from (octets_of u) s.now d.now r) (F.post rule.now) x y → Coated f out.old x y out.new }
{
    if spans_dark(r, x, y) {
        coat_by(
            out,
            x,
            y - x,
            |i: usize, low: u32| -> u32
                requires { F.pre rule.now i low u }
            { rule(i, low, u) },
        );
        return;
    }
    if spans_base(r, x, y) {
        let w = paint_words::seen(s, r.other);
        coat_by(
            out,
            x,
            y - x,
            |i: usize, low: u32| -> u32
                requires { F.pre rule.now i low w }
            { rule(i, low, w) },
        );
        return;
    }
    if spans_three(s, d, r, x, y) {
        let at = r.at + (x - r.from.0) * 3;
        coat_by(
            out,
            x,
            y - x,
            |i, low| rule(i, low, paint_words::seen_wide(d, at + i * 3)),
        );
        return;
    }
    coat_laid(out, row, s, d, r, x, y, u, rule);
}

// Above, where the mask's octets are those of m from the first on.
fn pick_image(
    out: &mut [u8],
    row: &mut [u8],
    m: &[u8],
    s: &[u8],
    d: &[u8],
    r: Row,
    x: usize,
    y: usize,
    u: u32,
)
    requires { ImageFits s.now d.now r × Plain r × (x < y) × (y < 65536) × (y * 4 ≤ length out.old) × (y - x ≤ length m.now) × (2048 ≤ length row.old) }
    ensures { Coated (chosen_by (bits_from m.now x 0) kept (over (image_from (octets_of u) s.now d.now r))) out.old x y out.new }
{
    coat_image(
        out,
        row,
        s,
        d,
        r,
        x,
        y,
        u,
        &|i, low, up| paint_words::either(m[i], low, up),
    );
}

// The mask was not read: both have to agree.
pub fn agree_under(
    out: &mut [u8],
    row: &mut [u8],
    s: &[u8],
    d: &[u8],
    r: Row,
    x: usize,
    y: usize,
    u: u32,
)
    requires { ImageFits s.now d.now r × Plain r × (x < y) × (y < 65536) × (y * 4 ≤ length out.old) × (2048 ≤ length row.old) }
    ensures { Coated (agrees (image_from (octets_of u) s.now d.now r) (octets_of u)) out.old x y out.new }
{
    coat_image(
        out,
        row,
        s,
        d,
        r,
        x,
        y,
        u,
        &|_, low, up| paint_words::same(low, up, u),
    );
}

// The mask was read, and has all of the pixels.
pub fn pick_under(
    out: &mut [u8],
    row: &mut [u8],
    bits: &mut [u8],
    s: &[u8],
    d: &[u8],
    m: Row,
    r: Row,
    x: usize,
    y: usize,
    u: u32,
)
    requires { MaskPart d.now m x y × ImageFits s.now d.now r × Plain r × (y * 4 ≤ length out.old) × (y - x + 24 ≤ length bits.old) × (2048 ≤ length row.old) }
    ensures { Coated (chosen_by (mask_at d.now m) kept (over (image_from (octets_of u) s.now d.now r))) out.old x y out.new }
{
    if m.ratio == 1 {
        let at = m.at + (x - m.from.0);
        pick_image(out, row, &d[at..], s, d, r, x, y, u);
        return;
    }
    let at = paint_choice::spread(bits, d, m, x, y);
    pick_image(out, row, &bits[at..], s, d, r, x, y, u);
}

// One colour below what stands there.
fn hide_word(out: &mut [u8], m: &[u8], w: u32, x: usize, y: usize)
    requires { (x ≤ y) × (y * 4 ≤ length out.old) × (y - x ≤ length m.now) }
    ensures { Coated (chosen_by (bits_from m.now x 0) (over (flat (octets_of w))) kept) out.old x y out.new }
{
    coat_by(out, x, y - x, |i, up| paint_words::either(m[i], w, up));
}

// Both layers, the lower one not yet painted, under octets of a mask.
fn two_masked(
    out: &mut [u8],
    row: &mut [u8],
    m: &[u8],
    s: &[u8],
    d: &[u8],
    low: Row,
    up: Row,
    x: usize,
    y: usize,
    u: u32,
)
    requires { ImageFits s.now d.now low × Plain low × ImageFits s.now d.now up × Plain up × (x < y) × (y < 65536) × (y * 4 ≤ length out.old) × (y - x ≤ length m.now) × (2048 ≤ length row.old) }
    ensures { Coated (chosen_by (bits_from m.now x 0) (over (image_from (octets_of u) s.now d.now low)) (over (image_from (octets_of u) s.now d.now up))) out.old x y out.new }
{
    let n = y - x;
    if spans_three(s, d, low, x, y) {
        let i = low.at + (x - low.from.0) * 3;
        if spans_three(s, d, up, x, y) {
            paint_two::two_images(out, x, m, d, i, up.at + (x - up.from.0) * 3, n);
            return;
        }
        if spans_dark(up, x, y) {
            paint_two::image_below(out, x, m, d, i, u, n);
            return;
        }
    }
    if spans_dark(low, x, y) {
        if spans_three(s, d, up, x, y) {
            paint_two::image_above(out, x, m, u, d, up.at + (x - up.from.0) * 3, n);
            return;
        }
        paint_image::lay_image(out, x, s, d, up, x, y, u);
        hide_word(out, m, u, x, y);
        return;
    }
    paint_image::lay_image(out, x, s, d, low, x, y, u);
    pick_image(out, row, m, s, d, up, x, y, u);
}

pub fn two_under(
    out: &mut [u8],
    row: &mut [u8],
    bits: &mut [u8],
    s: &[u8],
    d: &[u8],
    m: Row,
    low: Row,
    up: Row,
    x: usize,
    y: usize,
    u: u32,
)
    requires { MaskPart d.now m x y × ImageFits s.now d.now low × Plain low × ImageFits s.now d.now up × Plain up × (y * 4 ≤ length out.old) × (y - x + 24 ≤ length bits.old) × (2048 ≤ length row.old) }
    ensures { Coated (chosen_by (mask_at d.now m) (over (image_from (octets_of u) s.now d.now low)) (over (image_from (octets_of u) s.now d.now up))) out.old x y out.new }
{
    if m.ratio == 1 {
        let at = m.at + (x - m.from.0);
        two_masked(out, row, &d[at..], s, d, low, up, x, y, u);
        return;
    }
    let at = paint_choice::spread(bits, d, m, x, y);
    two_masked(out, row, &bits[at..], s, d, low, up, x, y, u);
}
