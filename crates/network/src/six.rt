// The six layers of a model that reads. `model::place_in` gives the places of a layer's arrays in the bytes of the
// model.
// Stays: table, bytes, m and features go side by side from frame_in to the layers. In a struct, the contracts would
// name each of them through its entry, as they do the arrays of layers::gru, and that is no plainer.
ghost use Rattle.std.specs.Prelude.{◌≡◌, ◌++◌, ◌+◌, ◌≤◌, length, take};
ghost use Rattle.model.specs.declared.Kind.TheVariants.{Dense, Gru};
ghost use Rattle.model.specs.Reading.{Good};
ghost use Rattle.model.specs.Model.{read_of};
ghost use Rattle.rules.specs.Place.{get, put};
ghost use Rattle.network.specs.Compute.{dense_at, gru_at, layered_on, layers_in_place, vad_in, noise_in, denoise_in};
ghost use Rattle.network.specs.Private.{state_at, LayerFits, VoiceFits, DenoiseFits};

use crate::layers;
use crate::layers::{Arrays, Table};
use model::{Header, Kind, Model};

// Stores src from this place on; what comes before it stays.
fn put(buf: &mut [f32], at: usize, src: &[f32])
    requires { at + length src.now ≤ length buf.old }
    ensures { take (at + length src.now) buf.new
        ≡ take at buf.old ++ src.now }
{
    let end = at + src.len();
    buf[at..end].copy_from_slice(src);
}

// Stores three slices, one after the other, at the front of buf.
pub(crate) fn join(buf: &mut [f32], first: &[f32], second: &[f32], third: &[f32])
    requires { length first.now + length second.now + length third.now ≤ length buf.old }
    ensures { take (length first.now + length second.now + length third.now)
        buf.new
        ≡ first.now ++ second.now ++ third.now }
{
    let a = first.len();
    let b = a + second.len();
    put(buf, 0, first);
    put(buf, a, second);
    put(buf, b, third);
}

// The dense layer with this header.
fn dense(output: &mut [f32], table: &Table, bytes: &[u8], h: Header, input: &[f32])
    requires { LayerFits Dense h (length bytes.now) (length output.old) (length input.now) }
    ensures { output.new ≡ dense_at bytes.now h input.now }
{
    let weights = model::place_in(bytes.len(), Kind::Dense, h, 0);
    let bias = model::place_in(bytes.len(), Kind::Dense, h, 2);
    let w = weights.at;
    let w_end = w + weights.size;
    let b = bias.at;
    let b_end = b + bias.size;
    let activation = h.activation;
    layers::dense(
        output,
        table,
        &bytes[w..w_end],
        &bytes[b..b_end],
        activation,
        input,
    );
}

// The same with an input that is in `states` from `at` on.
fn dense_on(
    output: &mut [f32],
    table: &Table,
    bytes: &[u8],
    h: Header,
    states: &[f32],
    at: usize,
    n: usize,
)
    requires { (at + n ≤ length states.now)
        × LayerFits Dense h (length bytes.now) (length output.old) n }
    ensures { output.new
        ≡ dense_at bytes.now h (get (record { at = at; size = n }) states.now) }
{
    let end = at + n;
    dense(output, table, bytes, h, &states[at..end]);
}

// The GRU layer with this header, whose state is in `states` from `at` on.
fn gru(states: &mut [f32], at: usize, table: &Table, bytes: &[u8], h: Header, input: &[f32])
    requires { (at + h.neurons ≤ length states.old)
        × LayerFits Gru h (length bytes.now) h.neurons (length input.now) }
    ensures { states.new ≡ put (state_at at h) states.old
        (gru_at bytes.now h input.now (get (state_at at h) states.old)) }
{
    let weights = model::place_in(bytes.len(), Kind::Gru, h, 0);
    let recurrent = model::place_in(bytes.len(), Kind::Gru, h, 1);
    let bias = model::place_in(bytes.len(), Kind::Gru, h, 2);
    let w = weights.at;
    let w_end = w + weights.size;
    let r = recurrent.at;
    let r_end = r + recurrent.size;
    let b = bias.at;
    let b_end = b + bias.size;
    let last = at + h.neurons;
    let layer = Arrays {
        weights: &bytes[w..w_end],
        recurrent: &bytes[r..r_end],
        bias: &bytes[b..b_end],
        activation: h.activation,
    };
    layers::gru_alone(&mut states[at..last], table, layer, input);
}

// input_dense, vad_gru and vad_output.
fn voice_of(
    hidden: &mut [f32],
    states: &mut [f32],
    voice: &mut [f32],
    table: &Table,
    bytes: &[u8],
    m: Model,
    features: &[f32],
)
    requires { (length states.old ≡ 384)
        × VoiceFits m (length bytes.now) (length hidden.old) (length voice.old) (length features.now) }
    ensures { (hidden.new ≡ dense_at bytes.now m.input_dense features.now)
        × (states.new ≡ put (state_at 0 m.vad_gru) states.old
        (gru_at bytes.now m.vad_gru hidden.new
        (get (state_at 0 m.vad_gru) states.old)))
        × (voice.new ≡ dense_at bytes.now m.vad_output
        (get (state_at 0 m.vad_gru) states.new)) }
{
    let input_dense = m.input_dense;
    let vad_gru = m.vad_gru;
    let vad_output = m.vad_output;
    let n = vad_gru.neurons;
    dense(hidden, table, bytes, input_dense, features);
    gru(states, 0, table, bytes, vad_gru, &hidden[..]);
    dense_on(voice, table, bytes, vad_output, &states[..], 0, n);
}

// noise_gru. Its inputs are joined before its state is written.
// Stays: denoise_of is alike, but its first part is one of `states`, which can't be lent beside them. One function of
// both is no plainer.
fn noise_of(
    states: &mut [f32],
    table: &Table,
    bytes: &[u8],
    m: Model,
    hidden: &[f32],
    features: &[f32],
)
    requires { (length states.old ≡ 384)
        × LayerFits Gru m.noise_gru (length bytes.now) m.noise_gru.neurons
        (length hidden.now + m.vad_gru.neurons + length features.now) }
    ensures { states.new ≡ put (state_at 128 m.noise_gru) states.old
        (gru_at bytes.now m.noise_gru
        (hidden.now ++ get (state_at 0 m.vad_gru) states.old ++ features.now)
        (get (state_at 128 m.noise_gru) states.old)) }
{
    let noise_gru = m.noise_gru;
    let n = m.vad_gru.neurons;
    let inputs = noise_gru.inputs;
    let mut buf = [0.0f32; 128];
    join(&mut buf, hidden, &states[0..n], features);
    gru(states, 128, table, bytes, noise_gru, &buf[0..inputs]);
}

// denoise_gru. Its inputs are joined before its state is written.
fn denoise_of(states: &mut [f32], table: &Table, bytes: &[u8], m: Model, features: &[f32])
    requires { (length states.old ≡ 384)
        × LayerFits Gru m.denoise_gru (length bytes.now) m.denoise_gru.neurons
        (m.vad_gru.neurons + m.noise_gru.neurons + length features.now) }
    ensures { states.new ≡ put (state_at 256 m.denoise_gru) states.old
        (gru_at bytes.now m.denoise_gru
        (get (state_at 0 m.vad_gru) states.old
        ++ get (state_at 128 m.noise_gru) states.old ++ features.now)
        (get (state_at 256 m.denoise_gru) states.old)) }
{
    let denoise_gru = m.denoise_gru;
    let n = m.vad_gru.neurons;
    let end = 128 + m.noise_gru.neurons;
    let inputs = denoise_gru.inputs;
    let mut buf = [0.0f32; 128];
    join(&mut buf, &states[0..n], &states[128..end], features);
    gru(states, 256, table, bytes, denoise_gru, &buf[0..inputs]);
}

// denoise_gru and denoise_output.
fn gains_of(
    states: &mut [f32],
    gains: &mut [f32],
    table: &Table,
    bytes: &[u8],
    m: Model,
    features: &[f32],
)
    requires { (length states.old ≡ 384)
        × DenoiseFits m (length bytes.now) (length gains.old) (length features.now) }
    ensures { (states.new ≡ put (state_at 256 m.denoise_gru) states.old
        (gru_at bytes.now m.denoise_gru
        (get (state_at 0 m.vad_gru) states.old
        ++ get (state_at 128 m.noise_gru) states.old ++ features.now)
        (get (state_at 256 m.denoise_gru) states.old)))
        × (gains.new ≡ dense_at bytes.now m.denoise_output
        (get (state_at 256 m.denoise_gru) states.new)) }
{
    let denoise_output = m.denoise_output;
    let n = m.denoise_gru.neurons;
    denoise_of(states, table, bytes, m, features);
    dense_on(gains, table, bytes, denoise_output, &states[..], 256, n);
}

// The six layers, with a lent buffer for the output of the first.
fn frame_in(
    hidden: &mut [f32],
    gains: &mut [f32],
    voice: &mut [f32],
    states: &mut [f32],
    bytes: &[u8],
    m: Model,
    features: &[f32],
)
    requires { (read_of bytes.now ≡ Good m) × (length hidden.old ≡ m.input_dense.neurons)
        × (length gains.old ≡ 22) × (length voice.old ≡ 1) × (length states.old ≡ 384)
        × (length features.now ≡ 42) }
    ensures { layered_on gains.new voice.new states.new
        ≡ layers_in_place bytes.now m (vad_in states.old) (noise_in states.old)
        (denoise_in states.old) features.now }
{
    let table = Table::new();
    voice_of(hidden, states, voice, &table, bytes, m, features);
    noise_of(states, &table, bytes, m, &hidden[..], features);
    gains_of(states, gains, &table, bytes, m, features);
}

// The six layers of a model that reads.
pub(crate) fn frame(
    gains: &mut [f32],
    voice: &mut [f32],
    states: &mut [f32],
    bytes: &[u8],
    m: Model,
    features: &[f32],
)
    requires { (read_of bytes.now ≡ Good m)
        × (length gains.old ≡ 22) × (length voice.old ≡ 1) × (length states.old ≡ 384)
        × (length features.now ≡ 42) }
    ensures { layered_on gains.new voice.new states.new
        ≡ layers_in_place bytes.now m (vad_in states.old) (noise_in states.old)
        (denoise_in states.old) features.now }
{
    let n = m.input_dense.neurons;
    let mut hidden = [0.0f32; 128];
    frame_in(&mut hidden[0..n], gains, voice, states, bytes, m, features);
}
