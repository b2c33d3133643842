// A part of a row of which nothing can be known, told by the rows alone: it is filled, and no sample is looked at.
#![tactic(auto)]

ghost use Rattle.std.specs.Prelude.{◌≡◌, true, ◌≤◌};
ghost use Rattle.line_pixel.specs.Rows.{RowsFit};
ghost use Rattle.paint_floor.specs.Floors.{Starts};
ghost use Rattle.paint_dark.specs.Dark.{Darkens, Lost};

use line_fetch::Row;

// Nothing is known above the pair, if nothing is known below.
fn stays_dark(m: Row, r: Row, a: usize, b: usize) -> bool
    ensures { result ≡ true → Darkens m r a b }
{
    if r.read == 0 {
        if paint_floor::spans(r, a, b) {
            return true;
        }
    }
    if m.other != 0 {
        return false;
    }
    (m.read == 0) | (m.to.0 <= m.from.0)
}

// So it is of all pairs from f on, where nothing is known of what pair f shows.
fn pairs_dark(
    s: &[u8],
    d: &[u8],
    rows: &[usize],
    pairs: usize,
    f: usize,
    a: usize,
    b: usize,
) -> bool
    requires { RowsFit s.now d.now rows.now pairs × Lost s.now d.now rows.now f a b × (f ≤ pairs) × (pairs ≤ 7) }
    ensures { result ≡ true → Lost s.now d.now rows.now pairs a b }
{
    for j in f..pairs {
        let p = j + 1;
        let m = line_fetch::row_at(rows, p * 2);
        let r = line_fetch::row_at(rows, p * 2 + 1);
        if !stays_dark(m, r, a, b) {
            return false;
        }
    }
    true
}

// Pair f shows its image layer over the part.
pub fn all_dark(
    s: &[u8],
    d: &[u8],
    rows: &[usize],
    pairs: usize,
    f: usize,
    a: usize,
    b: usize,
) -> bool
    requires { RowsFit s.now d.now rows.now pairs × Starts s.now d.now rows.now pairs a b f × (pairs ≤ 7) }
    ensures { result ≡ true → Lost s.now d.now rows.now pairs a b }
{
    let low = line_fetch::row_at(rows, f * 2 + 1);
    if low.read == 0 {
        if paint_floor::spans(low, a, b) {
            return pairs_dark(s, d, rows, pairs, f, a, b);
        }
    }
    false
}
