// The floors of a part of a row shown. A run of pixels of one floor gets its image layer laid; where floors change every few pixels, one is laid over all
// of them and the others are picked.
#![tactic(auto)]

ghost use Rattle.std.specs.Prelude.{◌≡◌, true, false, cond, [], ◌∷◌, ◌≢◌, ◌+◌, ◌-◌, ◌*◌, ◌<◌, ◌≤◌, length, eqb};
ghost use Rattle.line_pixel.specs.Rows.{RowsFit};
ghost use Rattle.paint_rules.specs.Floor.{dark};
ghost use Rattle.paint_words.specs.Words.{octets_of};
ghost use Rattle.paint_coat.specs.Coat.{Coated, over};
ghost use Rattle.paint_image.specs.Image.{moved};
ghost use Rattle.paint_floor.specs.Floors.{PlainRows};
ghost use Rattle.paint_table.specs.Table.{Tabled};
ghost use Rattle.paint_show.specs.Show.{floor_from, shows, picking, picking_other, is_floor, is_lit, Paired, Least, Alike, Begun, Runs};

use paint_floor::DARK;

// What floor c gives at the pixels a up to b, at those of the row from t on.
pub fn lay_floor(
    out: &mut [u8],
    t: usize,
    s: &[u8],
    d: &[u8],
    rows: &[usize],
    pairs: usize,
    c: u8,
    a: usize,
    b: usize,
    u: u32,
)
    requires { RowsFit s.now d.now rows.now pairs × PlainRows rows.now pairs × (c ≢ dark → c ≤ pairs) × (b < 65536) × (a ≤ b) × ((t + (b - a)) * 4 ≤ length out.old) }
    ensures { Coated (over (moved t a (floor_from (octets_of u) s.now d.now rows.now c))) out.old t (t + (b - a)) out.new }
{
    if c == DARK {
        paint_coat::lay_flat(out, t, t + (b - a), u);
        return;
    }
    let r = line_fetch::row_at(rows, usize::from(c) * 2 + 1);
    paint_image::lay_image(out, t, s, d, r, a, b, u);
}

// The upper one where the floor is c.
fn either(v: u8, c: u8, up: u32, low: u32) -> u32
    ensures { result ≡ cond (eqb v c) up low }
{
    if v == c { up } else { low }
}

fn pick_words(out: &mut [u8], sel: &[u8], i: usize, c: u8, row: &[u8], x: usize, e: usize)
    requires { (x ≤ e) × (e * 4 ≤ length out.old) × (i + (e - x) ≤ length sel.now) × ((e - x) * 4 ≤ length row.now) }
    ensures { Coated (picking sel.now i c row.now x) out.old x e out.new }
{
    for p in x..e {
        let low = paint_words::word(out, p * 4);
        let up = paint_words::word(row, (p - x) * 4);
        let v = sel[i + (p - x)];
        paint_words::put_word(out, p * 4, either(v, c, up, low));
    }
}

// Where the floor is c, and not v, which is shown already, what it gives: the row is there to lay it in first.
fn pick_floor(
    out: &mut [u8],
    sel: &[u8],
    row: &mut [u8],
    s: &[u8],
    d: &[u8],
    rows: &[usize],
    pairs: usize,
    v: u8,
    c: u8,
    a: usize,
    x: usize,
    e: usize,
    u: u32,
)
    requires { RowsFit s.now d.now rows.now pairs × PlainRows rows.now pairs × (c ≢ dark → c ≤ pairs) × (e < 65536) × (a ≤ x) × (x ≤ e) × (e * 4 ≤ length out.old)
        × (e - a ≤ length sel.now) × ((e - x) * 4 ≤ length row.old) }
    ensures { Coated (picking_other (octets_of u) s.now d.now rows.now sel.now a v c) out.old x e out.new }
{
    if c == v {
        return;
    }
    if sel[x - a..e - a].contains(&c) {
        lay_floor(row, 0, s, d, rows, pairs, c, x, e, u);
        pick_words(out, sel, x - a, c, row, x, e);
    }
}

// The floors from f on, where v and the dark are shown.
fn pick_pairs(
    out: &mut [u8],
    sel: &[u8],
    row: &mut [u8],
    s: &[u8],
    d: &[u8],
    rows: &[usize],
    pairs: usize,
    f: usize,
    v: u8,
    a: usize,
    x: usize,
    e: usize,
    u: u32,
)
    requires { RowsFit s.now d.now rows.now pairs × PlainRows rows.now pairs × Paired sel.now (x - a) (e - a) pairs × Least sel.now (x - a) (e - a) f × (f ≤ pairs) × (pairs ≤ 7)
        × (e < 65536) × (a ≤ x) × (x ≤ e) × (e * 4 ≤ length out.old) × (e - a ≤ length sel.now) × ((e - x) * 4 ≤ length row.old)
        × Begun (octets_of u) s.now d.now rows.now sel.now a x e (is_floor v) out.old }
    ensures { Coated (shows (octets_of u) s.now d.now rows.now sel.now a) out.old x e out.new }
{
    for c in f..=pairs {
        pick_floor(out, sel, row, s, d, rows, pairs, v, c as u8, a, x, e, u);
    }
}

// Floors that change every few pixels: that of the first is laid over all of them, and the others are picked.
fn mix_laid(
    out: &mut [u8],
    sel: &[u8],
    row: &mut [u8],
    s: &[u8],
    d: &[u8],
    rows: &[usize],
    pairs: usize,
    f: usize,
    a: usize,
    x: usize,
    e: usize,
    u: u32,
)
    requires { RowsFit s.now d.now rows.now pairs × PlainRows rows.now pairs × Paired sel.now (x - a) (e - a) pairs × Least sel.now (x - a) (e - a) f × (f ≤ pairs) × (pairs ≤ 7)
        × (e < 65536) × (a ≤ x) × (x < e) × (e * 4 ≤ length out.old) × (e - a ≤ length sel.now) × ((e - x) * 4 ≤ length row.old) }
    ensures { Coated (shows (octets_of u) s.now d.now rows.now sel.now a) out.old x e out.new }
{
    let v = sel[x - a];
    lay_floor(out, x, s, d, rows, pairs, v, x, e, u);
    pick_floor(out, sel, row, s, d, rows, pairs, v, DARK, a, x, e, u);
    pick_pairs(out, sel, row, s, d, rows, pairs, f, v, a, x, e, u);
}

// No floor has this number.
const NONE: u8 = 9;

// A floor that is in the table with its own places is shown already.
fn skipped(z: u8, c: u8) -> u8
    requires { c < 9 }
    ensures { result ≡ c → z ≡ 1 }
{
    if z == 1 { c } else { NONE }
}

// The floors from f on that are not, where those and the dark are shown.
fn pick_unlit(
    out: &mut [u8],
    sel: &[u8],
    row: &mut [u8],
    lit: &[u8],
    s: &[u8],
    d: &[u8],
    rows: &[usize],
    pairs: usize,
    f: usize,
    a: usize,
    x: usize,
    e: usize,
    u: u32,
)
    requires { RowsFit s.now d.now rows.now pairs × PlainRows rows.now pairs × Paired sel.now (x - a) (e - a) pairs × Least sel.now (x - a) (e - a) f × (f ≤ pairs) × (pairs ≤ 7)
        × (e < 65536) × (a ≤ x) × (x ≤ e) × (e * 4 ≤ length out.old) × (e - a ≤ length sel.now) × ((e - x) * 4 ≤ length row.old) × (16 ≤ length lit.now)
        × Begun (octets_of u) s.now d.now rows.now sel.now a x e (is_lit lit.now) out.old }
    ensures { Coated (shows (octets_of u) s.now d.now rows.now sel.now a) out.old x e out.new }
{
    for c in f..=pairs {
        let v = skipped(lit[c], c as u8);
        pick_floor(out, sel, row, s, d, rows, pairs, v, c as u8, a, x, e, u);
    }
}

// Floors that change every few pixels: those that are in the table with their own places are gathered, the dark and the others are picked.
fn mix_gathered(
    out: &mut [u8],
    sel: &[u8],
    row: &mut [u8],
    t: &[usize],
    lit: &[u8],
    s: &[u8],
    d: &[u8],
    rows: &[usize],
    pairs: usize,
    f: usize,
    step: usize,
    each: usize,
    a: usize,
    b: usize,
    x: usize,
    e: usize,
    u: u32,
)
    requires { RowsFit s.now d.now rows.now pairs × PlainRows rows.now pairs × Paired sel.now (x - a) (e - a) pairs × Least sel.now (x - a) (e - a) f × (f ≤ pairs) × (pairs ≤ 7)
        × (e ≤ b) × (e < 65536) × (a ≤ x) × (x ≤ e) × (e * 4 ≤ length out.old) × (e - a ≤ length sel.now) × ((e - x) * 4 ≤ length row.old)
        × Tabled each d.now rows.now t.now lit.now pairs f a b step }
    ensures { Coated (shows (octets_of u) s.now d.now rows.now sel.now a) out.old x e out.new }
{
    paint_gather::gather(out, a, sel, t, d, x, e, step, each);
    pick_floor(out, sel, row, s, d, rows, pairs, NONE, DARK, a, x, e, u);
    pick_unlit(out, sel, row, lit, s, d, rows, pairs, f, a, x, e, u);
}

// By the table, if there is one.
fn show_mixed(
    out: &mut [u8],
    sel: &[u8],
    row: &mut [u8],
    t: &[usize],
    lit: &[u8],
    s: &[u8],
    d: &[u8],
    rows: &[usize],
    pairs: usize,
    f: usize,
    step: usize,
    each: usize,
    a: usize,
    b: usize,
    x: usize,
    e: usize,
    u: u32,
)
    requires { RowsFit s.now d.now rows.now pairs × PlainRows rows.now pairs × Paired sel.now (x - a) (e - a) pairs × Least sel.now (x - a) (e - a) f × (f ≤ pairs) × (pairs ≤ 7)
        × (e ≤ b) × (e < 65536) × (a ≤ x) × (x < e) × (e * 4 ≤ length out.old) × (e - a ≤ length sel.now) × ((e - x) * 4 ≤ length row.old)
        × (step ≢ 0 → Tabled each d.now rows.now t.now lit.now pairs f a b step) }
    ensures { Coated (shows (octets_of u) s.now d.now rows.now sel.now a) out.old x e out.new }
{
    if step == 0 {
        mix_laid(out, sel, row, s, d, rows, pairs, f, a, x, e, u);
        return;
    }
    mix_gathered(
        out, sel, row, t, lit, s, d, rows, pairs, f, step, each, a, b, x, e, u,
    );
}

// Sixteen octets are those of four words, each of which is four times v.
fn same_16(s: &[u8], v: u8, four: u32, i: usize) -> bool
    requires { (i + 16 ≤ length s.now) × (octets_of four ≡ v ∷ v ∷ v ∷ v ∷ []) }
    ensures { result ≡ true → Alike v s.now i (i + 16) }
{
    let a = paint_words::word(s, i);
    let b = paint_words::word(s, i + 4);
    let c = paint_words::word(s, i + 8);
    let e = paint_words::word(s, i + 12);
    (a == four) & (b == four) & (c == four) & (e == four)
}

// One by one.
fn run_few(s: &[u8], v: u8, from: usize, to: usize) -> usize
    requires { (from ≤ to) × (to ≤ length s.now) }
    ensures { Runs v s.now from to result }
{
    for i in from..to {
        if s[i] != v {
            return i;
        }
    }
    to
}

// How far octets v go on from `from`, at most up to `to`: by sixteens, which four words tell at once, so that no `for` by ones says it.
fn run_on(s: &[u8], v: u8, from: usize, to: usize) -> usize
    requires { (from ≤ to) × (to ≤ length s.now) }
    ensures { Runs v s.now from to result }
{
    let four = paint_words::word_of(v, v, v, v);
    let mut i = from;
    while i < to {
        if 16 <= to - i {
            if same_16(s, v, four, i) {
                i += 16;
            } else {
                return run_few(s, v, i, i + 16);
            }
        } else {
            return run_few(s, v, i, to);
        }
    }
    i
}

// A step of n, or of what is left.
fn ahead(i: usize, n: usize, to: usize) -> usize
    requires { (i ≤ to) × (0 < n) }
    ensures { (i ≤ result) × (result ≤ to) × (result ≤ i + n) × (i < to → i < result) }
{
    i + n.min(to - i)
}

// Where a run begins that is worth a call of its own: looked for in steps, since one step is as good as another where floors change all the time.
fn mixed_end(sel: &[u8], i: usize, n: usize, whole: bool) -> usize
    requires { (i < n) × (n ≤ length sel.now) }
    ensures { (i < result) × (result ≤ n) × (result ≤ i + 512) }
{
    if whole {
        return ahead(i, 504, n);
    }
    let most = ahead(i, 512, n);
    let mut e = ahead(i, 64, most);
    while e < most {
        let near = ahead(e, 8, n);
        if near <= run_on(sel, sel[e], e, near) {
            return e;
        }
        e = ahead(e, 64, most);
    }
    e
}

// A run is laid if it has eight pixels; where pixels are gathered as fast as they are laid, if it goes on to the end.
fn run_wanted(i: usize, n: usize, whole: bool) -> usize
    requires { i < n }
    ensures { (i < result) × (result ≤ n) }
{
    if whole { n } else { ahead(i, 8, n) }
}

// Every floor is in the table with its own places, and a sample has one pixel: then pixels are gathered about as fast as they are laid, and faster than it
// is found out where runs end.
fn all_gathered(lit: &[u8], pairs: usize, f: usize, step: usize, each: usize) -> bool
    requires { (pairs ≤ 7) × (step ≢ 0 → each ≤ 3) × (step ≢ 0 → 16 ≤ length lit.now) }
{
    if step == 0 {
        return false;
    }
    if step != each * 12 {
        return false;
    }
    for c in f..=pairs {
        if lit[c] != 1 {
            return false;
        }
    }
    true
}

// The floors of the pixels a up to b shown, the floors starting at a.
pub fn show_floors(
    out: &mut [u8],
    sel: &[u8],
    row: &mut [u8],
    t: &[usize],
    lit: &[u8],
    s: &[u8],
    d: &[u8],
    rows: &[usize],
    pairs: usize,
    f: usize,
    step: usize,
    each: usize,
    a: usize,
    b: usize,
    u: u32,
)
    requires { RowsFit s.now d.now rows.now pairs × PlainRows rows.now pairs × Paired sel.now 0 (b - a) pairs × Least sel.now 0 (b - a) f × (f ≤ pairs) × (pairs ≤ 7) × (b < 65536) × (a ≤ b)
        × (b * 4 ≤ length out.old) × (b - a ≤ length sel.now) × (2048 ≤ length row.old)
        × (step ≢ 0 → Tabled each d.now rows.now t.now lit.now pairs f a b step) }
    ensures { Coated (shows (octets_of u) s.now d.now rows.now sel.now a) out.old a b out.new }
{
    let n = b - a;
    let whole = all_gathered(lit, pairs, f, step, each);
    let mut i = 0;
    while i < n {
        let v = sel[i];
        let near = run_wanted(i, n, whole);
        let q = run_on(sel, v, i, n);
        if q < near {
            let e = mixed_end(sel, i, n, whole);
            show_mixed(
                out,
                sel,
                row,
                t,
                lit,
                s,
                d,
                rows,
                pairs,
                f,
                step,
                each,
                a,
                b,
                a + i,
                a + e,
                u,
            );
            i = e;
        } else {
            lay_floor(out, a + i, s, d, rows, pairs, v, a + i, a + q, u);
            i = q;
        }
    }
}
