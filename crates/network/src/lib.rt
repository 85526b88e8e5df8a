// The layers of the network. Each is proved equal to its definition. A layer refuses with 5, and changes nothing,
// exactly if a length does not fit or a count is outside 1 to 127.
#![tactic(auto)]

ghost use Rattle.std.specs.Prelude.{◌≡◌, Ok, Err, length};
ghost use Rattle.rules.specs.Leaf.{Leaf, ◌leaving◌};
ghost use Rattle.rules.specs.declared.refusal.Refusal.TheVariants.{WrongLength};
ghost use Rattle.network.specs.declared.Unfit.TheVariants.{BadModel};
ghost use Rattle.network.specs.Compute.{outcome_of, outcome_on, computed, vad_in, noise_in, denoise_in};
ghost use Rattle.network.specs.Computed.{computed_of};
ghost use Rattle.network.specs.Layers.{dense_of, DenseFits, gru_of, GruFits};

mod layers;
mod six;

use model::{Activation, Misread};
use rules::Refusal;

// A dense layer: the output is the activation of the biases plus the weights times the input.
pub fn dense(
    output: &mut [f32],
    weights: &[u8],
    bias: &[u8],
    activation: Activation,
    input: &[f32],
) -> Result<(), Refusal>
    ensures { Leaf (DenseFits (length output.old) (length weights.now)
        (length bias.now)
        (length input.now))
        (result leaving output.new)
        (Ok tt leaving dense_of weights.now bias.now activation input.now)
        (Err WrongLength leaving output.old) }
{
    let n = output.len();
    let m = input.len();
    if n < 1 || 127 < n || m < 1 || 127 < m {
        return Err(Refusal::WrongLength);
    }
    if weights.len() != n * m || bias.len() != n {
        return Err(Refusal::WrongLength);
    }
    let table = layers::Table::new();
    layers::dense(output, &table, weights, bias, activation, input);
    Ok(())
}

// A GRU layer: the state becomes the next state.
pub fn gru(
    state: &mut [f32],
    weights: &[u8],
    recurrent: &[u8],
    bias: &[u8],
    activation: Activation,
    input: &[f32],
) -> Result<(), Refusal>
    ensures { Leaf (GruFits (length state.old) (length weights.now)
        (length recurrent.now)
        (length bias.now) (length input.now))
        (result leaving state.new)
        (Ok tt leaving gru_of weights.now recurrent.now bias.now activation
        input.now
        state.old)
        (Err WrongLength leaving state.old) }
{
    let n = state.len();
    let m = input.len();
    if n < 1 || 127 < n || m < 1 || 127 < m {
        return Err(Refusal::WrongLength);
    }
    let stride = 3 * n;
    if weights.len() != stride * m || recurrent.len() != stride * n || bias.len() != stride {
        return Err(Refusal::WrongLength);
    }
    let table = layers::Table::new();
    let layer = layers::Arrays {
        weights,
        recurrent,
        bias,
        activation,
    };
    layers::gru_alone(state, &table, layer, input);
    Ok(())
}

// Why a frame is not computed.
// Stays: two names rather than an Option of a `Misread`, since `None` would not say that a length is wrong.
#[derive(Clone, Copy)]
pub enum Unfit {
    // A length is wrong.
    BadLength,
    // The model does not read.
    BadModel(Misread),
}

impl From<Misread> for Unfit {
    ghost from_gives = { λ misread unfit. unfit ≡ BadModel misread };

    fn from(misread: Misread) -> Unfit {
        Unfit::BadModel(misread)
    }
}

// The six layers for one frame: 42 features give 22 gains and the probability of a voice. The three states, of 128
// places each, are next to each other in a slice of 384, and are updated.
pub fn compute_on(
    gains: &mut [f32],
    voice: &mut [f32],
    states: &mut [f32],
    model: &[u8],
    features: &[f32],
) -> Result<(), Unfit>
    ensures { outcome_on (computed_of result) gains.new voice.new states.new
        ≡ computed gains.old voice.old (vad_in states.old)
        (noise_in states.old)
        (denoise_in states.old) model.now features.now }
{
    if gains.len() != 22 || voice.len() != 1 || states.len() != 384 || features.len() != 42 {
        return Err(Unfit::BadLength);
    }
    let m = model::read(model)?;
    six::frame(gains, voice, states, model, m, features);
    Ok(())
}

// The same with each state in a slice of its own.
pub fn compute(
    gains: &mut [f32],
    voice: &mut [f32],
    vad: &mut [f32],
    noise: &mut [f32],
    denoise: &mut [f32],
    model: &[u8],
    features: &[f32],
) -> Result<(), Unfit>
    ensures { outcome_of (computed_of result) gains.new voice.new vad.new noise.new
        denoise.new
        ≡ computed gains.old voice.old vad.old noise.old
        denoise.old
        model.now features.now }
{
    if vad.len() != 128 || noise.len() != 128 || denoise.len() != 128 {
        return Err(Unfit::BadLength);
    }
    let mut states = [0.0f32; 384];
    six::join(&mut states, vad, noise, denoise);
    let answer = compute_on(gains, voice, &mut states, model, features);
    vad.copy_from_slice(&states[0..128]);
    noise.copy_from_slice(&states[128..256]);
    denoise.copy_from_slice(&states[256..384]);
    answer
}
