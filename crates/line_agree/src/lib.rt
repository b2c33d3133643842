// What two samples agree on.
#![tactic(auto)]

ghost use Rattle.std.specs.Prelude.{◌≡◌};
ghost use Rattle.pixel_rules.specs.Decide.{agree};
ghost use Rattle.line_agree.specs.Known.{is_known};

use pixel_rules::Sample;

pub fn agreed(low: Sample, up: Sample) -> Sample
    ensures { result ≡ agree low up }
{
    match low {
        Some(c) => match up {
            Some(e) => { if c == e { low } else { None } }
            None => None,
        },
        None => None,
    }
}

pub fn is_known(p: Sample) -> bool
    ensures { result ≡ is_known p }
{
    p.is_some()
}
