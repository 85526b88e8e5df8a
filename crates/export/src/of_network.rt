// network: a dense layer, a GRU layer, and all six layers of a model for one frame. Refusals: 5, a slice has a wrong
// length; and if the model does not read, 7 + 256 times the model's refusal + 65,536 times the layer.
ghost use Rattle.std.specs.Prelude.{◌≡◌, length};
ghost use Rattle.rules.specs.Leaf.{Leaf, ◌leaving◌};
ghost use Rattle.model.specs.Layer.{activation_of};
ghost use Rattle.network.specs.Layers.{dense_of, DenseFits, gru_of, GruFits};
ghost use Rattle.network.specs.Compute.{layered_of, computed};
ghost use Rattle.network.specs.Computed.{computed_of};
ghost use Rattle.export.specs.OfNetwork.{KnownActivation, computed_number, computed_told};

use model::Activation;
use network::Unfit;
use rules::{Refusal, told};

// A dense layer with i inputs and n neurons, 1 to 127 each. `output` has n numbers, `weights` has i*n, `bias` has n,
// `input` has i. `activation` is 0 for tanh, 1 for sigmoid, 2 for relu.
#[unsafe(no_mangle)]
pub extern "C" fn tuppence_dense(
    output: &mut [f32],
    weights: &[u8],
    bias: &[u8],
    activation: u32,
    input: &[f32],
) -> u32
    ensures { Leaf
        (KnownActivation activation (DenseFits
        (length output.old) (length weights.now) (length bias.now)
        (length input.now)))
        (result leaving output.new)
        (0 leaving dense_of weights.now bias.now (activation_of activation) input.now)
        (5 leaving output.old) }
{
    match Activation::try_from(activation) {
        Ok(activation) => told(network::dense(output, weights, bias, activation, input)),
        Err(_) => Refusal::WrongLength.number(),
    }
}

// A GRU layer. `state` has n numbers and is replaced by the frame's output. `weights` has 3*i*n, `recurrent` 3*n*n,
// `bias` 3*n, `input` i.
#[unsafe(no_mangle)]
pub extern "C" fn tuppence_gru(
    state: &mut [f32],
    weights: &[u8],
    recurrent: &[u8],
    bias: &[u8],
    activation: u32,
    input: &[f32],
) -> u32
    ensures { Leaf
        (KnownActivation activation (GruFits
        (length state.old) (length weights.now) (length recurrent.now)
        (length bias.now)
        (length input.now)))
        (result leaving state.new)
        (0 leaving gru_of
        weights.now recurrent.now bias.now
        (activation_of activation) input.now state.old)
        (5 leaving state.old) }
{
    match Activation::try_from(activation) {
        Ok(activation) => told(network::gru(state, weights, recurrent, bias, activation, input)),
        Err(_) => Refusal::WrongLength.number(),
    }
}

// The number of a frame's answer: 0, 5, or 7 with the number and the layer of a model that does not read.
fn number_of(answer: Result<(), Unfit>) -> u32
    ensures { result ≡ computed_number (computed_of answer) }
{
    match answer {
        Ok(()) => 0,
        Err(Unfit::BadLength) => Refusal::WrongLength.number(),
        Err(Unfit::BadModel(misread)) => crate::of_model::seven(misread),
    }
}

// The six layers for one frame. `gains` gets 22 numbers, `voice` one. The states `vad`, `noise` and `denoise` have
// 128 numbers each. `features` are 42, and `model` is the contents of a model file.
#[unsafe(no_mangle)]
pub extern "C" fn tuppence_network(
    gains: &mut [f32],
    voice: &mut [f32],
    vad: &mut [f32],
    noise: &mut [f32],
    denoise: &mut [f32],
    model: &[u8],
    features: &[f32],
) -> u32
    ensures { (result leaving layered_of
        gains.new voice.new vad.new noise.new denoise.new)
        ≡ computed_told (computed
        gains.old voice.old vad.old noise.old denoise.old
        model.now features.now) }
{
    number_of(network::compute(gains, voice, vad, noise, denoise, model, features))
}
