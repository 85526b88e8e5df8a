// The functions of crates/export/src/of_network.rt for C: the same names and contracts.
// tools/make_export_c.sh makes this file.
ghost use Rattle.std.specs.Prelude.{◌≡◌, length};
ghost use Rattle.rules.specs.Leaf.{Leaf, ◌leaving◌};
ghost use Rattle.model.specs.Layer.{activation_of};
ghost use Rattle.network.specs.Layers.{dense_of, DenseFits, gru_of, GruFits};
ghost use Rattle.network.specs.Compute.{layered_of, computed};
ghost use Rattle.export.specs.OfNetwork.{KnownActivation, computed_told};

#[unsafe(no_mangle)]
pub extern "C" fn tuppence_dense(
    output: &mut [f32],
    weights: &[u8],
    bias: &[u8],
    activation: u32,
    input: &[f32],
) -> u32
    ensures { Leaf
        (KnownActivation activation (DenseFits
        (length output.old) (length weights.now) (length bias.now)
        (length input.now)))
        (result leaving output.new)
        (0 leaving dense_of weights.now bias.now (activation_of activation) input.now)
        (5 leaving output.old) }
{
    export::of_network::tuppence_dense(output, weights, bias, activation, input)
}

#[unsafe(no_mangle)]
pub extern "C" fn tuppence_gru(
    state: &mut [f32],
    weights: &[u8],
    recurrent: &[u8],
    bias: &[u8],
    activation: u32,
    input: &[f32],
) -> u32
    ensures { Leaf
        (KnownActivation activation (GruFits
        (length state.old) (length weights.now) (length recurrent.now)
        (length bias.now)
        (length input.now)))
        (result leaving state.new)
        (0 leaving gru_of
        weights.now recurrent.now bias.now
        (activation_of activation) input.now state.old)
        (5 leaving state.old) }
{
    export::of_network::tuppence_gru(state, weights, recurrent, bias, activation, input)
}

#[unsafe(no_mangle)]
pub extern "C" fn tuppence_network(
    gains: &mut [f32],
    voice: &mut [f32],
    vad: &mut [f32],
    noise: &mut [f32],
    denoise: &mut [f32],
    model: &[u8],
    features: &[f32],
) -> u32
    ensures { (result leaving layered_of
        gains.new voice.new vad.new noise.new denoise.new)
        ≡ computed_told (computed
        gains.old voice.old vad.old noise.old denoise.old
        model.now features.now) }
{
    export::of_network::tuppence_network(gains, voice, vad, noise, denoise, model, features)
}
