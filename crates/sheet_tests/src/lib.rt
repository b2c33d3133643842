// The judge's tests of one record. Each is the test of specs/Judge.antt of `sheet_rules` under a name of its own.
//
// A test of fields evaluates all its operands (`&` and `|`, never `&&`), so that its value is the definition's expression as it stands. A test
// that calls costly tests branches, so that a record is put only to those of its layer, and a division is made only where two resolutions differ:
// the judge takes less than half the time.
#![tactic(auto)]

ghost use Rattle.std.specs.Prelude.{◌≡◌, ◌+◌};
ghost use Rattle.sheet_rules.specs.Judge.{zeros_ok, grey_ok, closes, placed, coded, coder_ok, coded_ok, uncoded_ok, data_ok, res_ok, base_ok, page_ok, choice_ok, upper_ok, layer_ok, keeps};

use sheet_rules::{Record, State};

pub fn zeros_ok(r: Record) -> bool
    ensures { result ≡ zeros_ok r }
{
    r.octets26 == 0
}

pub fn grey_ok(r: Record) -> bool
    ensures { result ≡ grey_ok r }
{
    (r.octet17 == 0) | (r.octet17 == 1) & (r.layer % 2 == 1) & (r.coder == 1)
}

pub fn may_close(l: u8) -> bool
    ensures { result ≡ closes l }
{
    (l % 2 == 1) & (3 <= l)
}

pub fn is_placed(st: State, r: Record) -> bool
    ensures { result ≡ placed st r }
{
    if r.stripe == st.stripe {
        return (r.layer as u16 == st.layer as u16 + 1) & (r.layer <= 15);
    }
    (r.stripe as u32 == st.stripe as u32 + 1)
        & (r.stripe < 64)
        & (r.layer == 1)
        & may_close(st.layer)
}

pub fn is_coded(r: Record) -> bool
    ensures { result ≡ coded r }
{
    r.len != 0
}

pub fn coder_ok(layer: u8, coder: u8) -> bool
    ensures { result ≡ coder_ok layer coder }
{
    (coder == 1) | (layer % 2 == 0) & ((coder == 2) | (coder == 4) | (coder == 8))
}

pub fn coded_ok(r: Record) -> bool
    ensures { result ≡ coded_ok r }
{
    coder_ok(r.layer, r.coder)
        & (r.width != 0)
        & (r.height != 0)
        & (octets_get::end_of(r.start, r.len) < 4294967296)
}

pub fn uncoded_ok(r: Record) -> bool
    ensures { result ≡ uncoded_ok r }
{
    (r.coder == 0)
        & (r.start == 0)
        & ((r.layer == 2) | (r.x == 0) & (r.y == 0) & (r.width == 0) & (r.height == 0))
}

pub fn data_ok(r: Record) -> bool
    ensures { result ≡ data_ok r }
{
    if is_coded(r) {
        return coded_ok(r);
    }
    uncoded_ok(r)
}

pub fn res_ok(is_coded: bool, res: u16, main: u16) -> bool
    ensures { result ≡ res_ok is_coded res main }
{
    if res == main {
        return res != 0;
    }
    if is_coded {
        return resolution::is_divisor(res, main);
    }
    false
}

pub fn base_ok(r: Record) -> bool
    ensures { result ≡ base_ok r }
{
    (r.layer % 2 == 1) | (r.base0 == 0) & (r.base1 == 0) & (r.base2 == 0)
}

pub fn page_ok(st: State, r: Record) -> bool
    ensures { result ≡ page_ok st r }
{
    (r.x == 0)
        & (r.y == 0)
        & (1 <= r.width)
        & (r.width <= 32768)
        & (1 <= r.height)
        & (r.height <= st.left)
        & ((r.stripe == 0) | (r.width == st.width) & (r.res == st.main))
        & res_ok(st.coded1, st.res1, r.res)
}

pub fn choice_ok(a: bool, b: bool, c: bool) -> bool
    ensures { result ≡ choice_ok a b c }
{
    (a | b | c) & (b | !(a & c))
}

pub fn upper_ok(st: State, r: Record) -> bool
    ensures { result ≡ upper_ok st r }
{
    let own = is_coded(r);
    res_ok(own, r.res, st.main) & ((r.layer != 3) | choice_ok(st.coded1, st.coded2, own))
}

pub fn layer_ok(st: State, r: Record) -> bool
    ensures { result ≡ layer_ok st r }
{
    if r.layer == 1 {
        return true;
    }
    if r.layer == 2 {
        return page_ok(st, r);
    }
    (3 <= r.layer) & upper_ok(st, r)
}

// The record, with those before it, breaks no rule.
pub fn keeps_rules(st: State, r: Record) -> bool
    ensures { result ≡ keeps st r }
{
    if !zeros_ok(r) {
        return false;
    }
    if !grey_ok(r) {
        return false;
    }
    if !is_placed(st, r) {
        return false;
    }
    if !data_ok(r) {
        return false;
    }
    if !resolution::is_listed(r.res) {
        return false;
    }
    if !base_ok(r) {
        return false;
    }
    layer_ok(st, r)
}
