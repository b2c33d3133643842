// Where a run of one octet ends: FF before a marker (T.81 B.1.1.2), 00 behind the end of page (9.4). A run may be as long as the page.
#![tactic(auto)]

ghost use Rattle.std.specs.Prelude.{true, ℕ, ◌≡◌, ◌+◌, ◌<◌, ◌≤◌, length};
ghost use Rattle.octets.proofs.Runs.{run_end};
ghost use Rattle.octets_run.specs.Runs.{RunsTo};

// One by one, up to `to`.
fn run_to(s: &[u8], v: u8, from: usize, to: usize) -> usize
    requires from_le_to { from ≤ to }
    requires to_in_bounds { to ≤ length s.now }
    ensures { RunsTo v s.now from to result }
{
    for i in from..to {
        if s[i] != v {
            return i;
        }
    }
    to
}

// Every one is asked, whatever the others answered: a fixed count without another way out is done sixteen at a time.
pub fn each<const N: usize, F: Fn(usize) -> bool>(test: F) -> bool
    requires { (j : ℕ) → j < N → F.pre test j }
    ensures { result ≡ true → (j : ℕ) → j < N → F.post test j true }
{
    let mut all = true;
    for j in 0..N {
        all &= test(j);
    }
    all
}

// All 64 from i on are looked at, whatever is found: a fixed count without another way out is done sixteen octets at a time.
fn all_same(s: &[u8], v: u8, i: usize) -> bool
    requires { i + 64 ≤ length s.now }
    ensures { result ≡ true → run_end v s.now i ≡ run_end v s.now (i + 64) }
{
    each::<64, _>(|j| s[i + j] == v)
}

// Most runs are short, so that the first 32 octets are looked at one by one.
pub fn run_end(s: &[u8], v: u8, from: usize) -> usize
    requires { from ≤ length s.now }
    ensures { result ≡ run_end v s.now from }
{
    let n = s.len();
    if n - from <= 32 {
        return run_to(s, v, from, n);
    }
    let first = run_to(s, v, from, from + 32);
    if first < from + 32 {
        return first;
    }
    let mut i = from + 32;
    // no `for`: where the last clean block ends is what is looked for
    while 64 <= n - i && all_same(s, v, i) {
        i += 64;
    }
    run_to(s, v, i, n)
}
