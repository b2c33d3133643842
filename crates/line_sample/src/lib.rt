// One sample: the step from a main place to a sample's, and what stands there in the buffer.
#![tactic(auto)]

ghost use Rattle.std.specs.Prelude.{◌≡◌, ◌+◌, ◌*◌, ◌<◌, ◌≤◌, length, get_or};
ghost use Rattle.pixel_rules.specs.Place.{scale};
ghost use Rattle.pixel_rules.specs.Samples.{bit_of, colour_in, depth};
ghost use Rattle.sheet_rules.specs.Record.{colour_at};
ghost use Rattle.line_sample.specs.Factor.{factor_of, Steps};

use pixel_rules::{MainPos, Mask, SamplePos};
use sheet_rules::{Colour, Record};

// What a place is multiplied with to be divided by k. The ratios that accepted sheets have are constants: a line's rows need no division for it.
pub fn factor_of(k: usize) -> usize
    requires { (0 < k) × (k < 65536) }
    ensures { result ≡ factor_of k }
{
    match k {
        1 => 281474976710656,
        2 => 140737488355328,
        3 => 93824992236886,
        4 => 70368744177664,
        6 => 46912496118443,
        12 => 23456248059222,
        _ => (281474976710655 + k) / k,
    }
}

// The one step from a main place to a sample's. A division by the ratio would cost more than all else of a pixel, and with a choice among constants
// a line took a quarter longer; the ratio is there to say what the factor divides by.
pub fn scale_pos(ratio: usize, factor: usize, o: MainPos, p: MainPos) -> SamplePos
    requires { Steps ratio factor o p }
    ensures { result ≡ scale ratio o p }
{
    let d = p.0 - o.0;
    SamplePos(d * factor / 281474976710656)
}

pub fn bit_of(v: u8) -> Mask
    ensures { result ≡ bit_of v }
{
    if v == 0 { Mask::Zero } else { Mask::One }
}

// A mask outside its area, or one without samples.
pub fn other_bit(v: usize) -> Mask
    ensures { result ≡ bit_of v }
{
    if v == 0 { Mask::Zero } else { Mask::One }
}

pub fn colour_at(d: &[u8], i: usize) -> Colour
    requires { i + 3 ≤ length d.now }
    ensures { result ≡ colour_at d.now i }
{
    Colour {
        c0: d[i],
        c1: d[i + 1],
        c2: d[i + 2],
    }
}

// The sample of a mask, so many samples past the start of its row.
pub fn bit_at(d: &[u8], at: usize, p: SamplePos) -> Mask
    requires { at + p.0 < length d.now }
    ensures { result ≡ bit_of (get_or d.now (at + p.0) 0) }
{
    let i = at + p.0;
    bit_of(d[i])
}

// The colour of an image layer's sample, so many samples past the start of its row, of so many octets each. Its first octet is fetched before the test,
// and one colour comes of both: with a fetch and a sample for each kind of layer a line took a tenth longer.
pub fn image_colour(d: &[u8], at: usize, each: usize, p: SamplePos) -> Colour
    requires { (0 < each) × (at + p.0 * each + each ≤ length d.now) }
    ensures { result ≡ colour_in each d.now (at + p.0 * each) }
{
    let i = at + p.0 * each;
    let light = d[i];
    if each == 3 {
        return Colour {
            c0: light,
            c1: d[i + 1],
            c2: d[i + 2],
        };
    }
    Colour {
        c0: light,
        c1: 128,
        c2: 96,
    }
}

// The octets of a sample of a layer.
pub fn depth_of(r: Record) -> usize
    ensures { (result ≡ depth r) × (result ≤ 3) }
{
    if (r.layer % 2 == 0) | (r.octet17 == 1) {
        1
    } else {
        3
    }
}

// The octets of n samples of so many octets each. In 64 bits, since width times height times three passes 32.
pub fn sample_octets(n: usize, each: usize) -> usize
    requires { (n < 4294967296) × (each ≤ 3) }
    ensures { (result ≡ n * each) × (result < 12884901888) }
{
    n * each
}
