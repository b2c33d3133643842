// Lines of a stripe that differ in layer 2 alone: where the samples of all other layers are several lines high, each row of them serves several lines.
#![tactic(auto)]

ghost use Rattle.std.specs.Prelude.{◌≡◌, true, ◌+◌, ◌*◌, ◌%◌, ◌<◌, ◌≤◌, length};
ghost use Rattle.line_lanes.specs.Lanes.{lane_size, lane_at, LaneFits, LanesFit};
ghost use Rattle.lane_groups.specs.Groups.{Same, Fewer, Grouped, Steady};

use line_lanes::Lane;

// How many lines from y on are left of a row of samples.
fn lines_left(ratio: usize, down: usize) -> usize
    requires { 0 < ratio }
    ensures { (1 ≤ result) × (down % ratio + result ≤ ratio) }
{
    if ratio == 1 {
        return 1;
    }
    ratio - down % ratio
}

// No stripe has more lines.
const ALL: usize = 65536;

// How many lines from y on have one row of the lane, at least.
fn lines_of(w: Lane, y: usize) -> usize
    requires { LaneFits w }
    ensures { Same w y result }
{
    if y < w.top.0 {
        return w.top.0 - y;
    }
    if w.bottom.0 <= y {
        return ALL;
    }
    if w.step == 0 {
        return w.bottom.0 - y;
    }
    lines_left(w.ratio, y - w.top.0).min(w.bottom.0 - y)
}

// Of g lines from y on, those in which layer l has one row; layer 2 may have another in each.
#[tactic(auto, using(crate::proofs::Laws::fewering))]
fn fewer(lanes: &[usize], l: usize, y: usize, g: usize) -> usize
    requires { (1 ≤ l) × (l * lane_size ≤ length lanes.now) × (1 ≤ g) × LaneFits (lane_at lanes.now l) }
    ensures { Fewer lanes.now l y g result }
{
    if l == 2 {
        return g;
    }
    g.min(lines_of(line_lanes::lane_at(lanes, l), y))
}

// How many lines from y on, at most so many, have the rows of line y but for that of layer 2.
pub fn group_of(lanes: &[usize], n: usize, y: usize, most: usize) -> usize
    requires { LanesFit lanes.now n × (1 ≤ most) }
    ensures { Grouped lanes.now n y most result }
{
    let mut g = most;
    for l in 1..=n {
        if g <= 1 {
            return 1;
        }
        g = fewer(lanes, l, y, g);
    }
    g
}

// A mask that was read, a pixel a sample, over all pixels of g lines from y on.
pub fn steady(w: Lane, y: usize, g: usize, width: usize) -> bool
    ensures { result ≡ true → Steady w y g width }
{
    if w.read == 0 {
        return false;
    }
    if w.bottom.0 < y {
        return false;
    }
    (w.ratio == 1) & (w.from.0 == 0) & (width <= w.to.0) & (w.top.0 <= y) & (g <= w.bottom.0 - y)
}
