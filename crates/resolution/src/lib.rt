// Resolutions (01, "The page, Mode 1"): the six that are listed, and one that divides another.
#![tactic(auto)]

ghost use Rattle.std.specs.Prelude.{◌≡◌};
ghost use Rattle.sheet_rules.specs.Judge.{listed, divides};

pub fn is_listed(r: u16) -> bool
    ensures { result ≡ listed r }
{
    (r == 100) | (r == 200) | (r == 300) | (r == 400) | (r == 600) | (r == 1200)
}

// Guarded by itself, since a resolution need not be listed here.
pub fn is_divisor(a: u16, b: u16) -> bool
    ensures { result ≡ divides a b }
{
    a != 0 && b % a == 0
}
