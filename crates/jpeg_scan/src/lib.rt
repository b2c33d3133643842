// The next marker after scan data (01, "Where an image layer ends"; 02, 2026-03). A run of FF is walked once: what it led to is handed on.
#![tactic(auto)]

ghost use Rattle.std.specs.Prelude.{true, ◌≡◌, ◌+◌, ◌<◌, ◌≤◌, length};
ghost use Rattle.jpeg_rules.specs.Walk.{data_run, scan_of};
ghost use Rattle.jpeg_scan.specs.Search.{filled_triple, AllFilled, Clears, Shows};

// The first FF of its run, its code and the place after that; or there is none.
#[derive(Clone, Copy)]
pub struct Next {
    pub place: usize,
    pub code: u8,
    pub next: usize,
}

// FF 00, and any run before D0 to D7.
fn is_data(run: usize, code: u8) -> bool
    ensures { result ≡ data_run run code }
{
    match code {
        0x00 => run == 1,
        0xD0..=0xD7 => true,
        _ => false,
    }
}

// A pair that is data, or FF FF with no 00 after it.
fn is_filled(a: u8, b: u8, c: u8) -> bool
    ensures { result ≡ filled_triple a b c }
{
    jpeg_pairs::is_plain(a, b) | ((b == 0xFF) & (c != 0x00))
}

fn all_filled(s: &[u8], i: usize) -> bool
    requires { i + 33 < length s.now }
    ensures { result ≡ true → AllFilled s.now i 32 }
{
    octets_run::each::<32, _>(|j| is_filled(s[i + j], s[i + j + 1], s[i + j + 2]))
}

// Data with fill before its restart markers, of which 32 octets are passed; a run that goes on behind them is not.
fn clears(s: &[u8], i: usize) -> bool
    requires { i + 33 < length s.now }
    ensures { result ≡ true → scan_of s.now i ≡ scan_of s.now (i + 32) }
{
    if (s[i + 31] == 0xFF) & (s[i + 32] == 0xFF) {
        return false;
    }
    all_filled(s, i)
}

// Where one restart marker has fill the next ones may: eight such blocks at the most.
fn pass_filled(s: &[u8], from: usize) -> usize
    requires { from ≤ length s.now }
    ensures { Clears s.now from result }
{
    let mut i = from;
    for _ in 0..8 {
        if s.len() - i < 34 || !clears(s, i) {
            return i;
        }
        i += 32;
    }
    i
}

// Where scan data that begins at `from` ends: from one pair that is more than data to the next.
pub fn next_marker(s: &[u8], from: usize) -> Option<Next>
    ensures { Shows s.now result (scan_of s.now from) }
{
    let n = s.len();
    if n <= from || n - from < 2 {
        return None;
    }
    let mut i = jpeg_pairs::suspect(s, from);
    while 2 <= n - i {
        if s[i + 1] != 0xFF {
            return Some(Next {
                place: i,
                code: s[i + 1],
                next: i + 2,
            });
        }
        let e = octets_run::run_end(s, 0xFF, i + 2);
        if n <= e {
            return None;
        }
        if !is_data(e - i, s[e]) {
            return Some(Next {
                place: i,
                code: s[e],
                next: e + 1,
            });
        }
        let j = pass_filled(s, e + 1);
        if n - j < 2 {
            return None;
        }
        i = jpeg_pairs::suspect(s, j);
    }
    None
}
