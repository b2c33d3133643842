// The coded layers of a stripe: the mask's data by its length, the image layers by their walks.
#![tactic(auto)]

ghost use Rattle.std.specs.Prelude.{◌≡◌, ◌+◌, ◌≤◌};
ghost use Rattle.answers.specs.Answers.{refusal_place};
ghost use Rattle.segment_rules.specs.Rules.{longest_page};
ghost use Rattle.mode1_rules.specs.Reading.{fault_of, walked};
ghost use Rattle.read_layers.specs.Layers.{Inside, layer_of, layers_in};

use answers::Refusal;
use jpeg_rules::Fault;
use mode1_rules::LayerData;

// An image layer, or none where the type names none, and the place after it.
#[derive(Clone, Copy)]
pub struct Layer {
    pub coded: Option<LayerData>,
    pub next: u32,
}

// Both image layers of a stripe, and the place after its last layer.
#[derive(Clone, Copy)]
pub struct Layers {
    pub back: Option<LayerData>,
    pub fore: Option<LayerData>,
    pub next: u32,
}

// A place of a page fits the answer.
fn fault_answer(f: Fault) -> Refusal
    requires { refusal_place (fault_of f) ≤ longest_page }
    ensures { result ≡ fault_of f }
{
    match f {
        Fault::Short(p) => Refusal::Short(p as u32),
        Fault::BadLength(p) => Refusal::BadLength(p as u32),
        Fault::BadRes(p) => Refusal::BadRes(p as u32),
        Fault::BadLayer(p) => Refusal::BadLayer(p as u32),
    }
}

// No length is given for an image layer: the walk finds its end.
fn layer_at(s: &[u8], main: u16, present: bool, at: u32) -> Result<Layer, Refusal>
    requires { Inside s.now at }
    ensures { result ≡ layer_of (walked s.now main present at) }
{
    if !present {
        return Ok(Layer {
            coded: None,
            next: at,
        });
    }
    match jpeg_walk::walk_layer(s, at as usize, main) {
        Ok((next, said)) => Ok(Layer {
            coded: Some(LayerData {
                start: at,
                size: (next - at as usize) as u32,
                said,
            }),
            next: next as u32,
        }),
        Err(f) => Err(fault_answer(f)),
    }
}

// 01: the coded layers stand in the order mask, background, foreground.
pub fn read_layers(s: &[u8], main: u16, t: u8, mask: u32, at: u32) -> Result<Layers, Refusal>
    requires { Inside s.now at }
    ensures { result ≡ layers_in s.now main t mask at }
{
    if !read_field::fits(s, at, mask) {
        return Err(Refusal::Short(at));
    }
    let back = layer_at(s, main, read_head::has_back(t), at + mask)?;
    let fore = layer_at(s, main, read_head::has_fore(t), back.next)?;
    Ok(Layers {
        back: back.coded,
        fore: fore.coded,
        next: fore.next,
    })
}
