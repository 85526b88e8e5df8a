// The layers for lengths that fit. The table of the activations is lent, so that a frame fills it only once.
ghost use Rattle.std.specs.Prelude.{◌≡◌, map, ◌+◌, ◌*◌, ◌≤◌, length};
ghost use Rattle.rules.specs.F32.{◌⊗◌};
ghost use Rattle.rules.specs.Loop.{loop};
ghost use Rattle.numbers.specs.Tansig.{tansig};
ghost use Rattle.network.specs.Layers.{weights_scale, copied, activated, update_step, reset_step, blend_step};
ghost use Rattle.network.specs.Layers.{gate_sums};
ghost use Rattle.network.specs.Layers.{dense_of, DenseArrays, gru_of, GruArrays};
ghost use Rattle.network.specs.Private.{times_step, mix_step, GateFits, ScratchFits};

use model::Activation;

const WEIGHTS_SCALE: f32 = 1.0 / 256.0;

// The table of the activations.
#[derive(Drop)]
pub(crate) struct Table {
    // Its places.
    entries: [f32; 201],
    ghost filled: { entries ≡ tansig },
}

impl Table {
    pub(crate) fn new() -> Self {
        Table {
            entries: numbers::table::all(),
        }
    }
}

// The arrays of a GRU layer, and its activation.
#[derive(Clone, Copy)]
pub(crate) struct Arrays<'a> {
    // For each input, a weight for each gate of each neuron.
    pub(crate) weights: &'a [u8],
    // The same for each neuron's state.
    pub(crate) recurrent: &'a [u8],
    // A bias for each gate of each neuron.
    pub(crate) bias: &'a [u8],
    // What is applied to the sums of the candidates.
    pub(crate) activation: Activation,
}

// Copies biases, as numbers.
fn copy_weights(out: &mut [f32], bytes: &[u8])
    requires { length out.old ≡ length bytes.now }
    ensures { out.new ≡ copied bytes.now }
{
    for (j, x) in out.iter_mut().enumerate() {
        *x = matrix::sums::weight(bytes[j]);
    }
}

// Multiplies each sum by the scale of the weights.
fn scale(xs: &mut [f32])
    ensures { xs.new ≡ map (λ x. weights_scale ⊗ x) xs.old }
{
    for x in xs.iter_mut() {
        *x = WEIGHTS_SCALE * *x;
    }
}

// Applies the activation to each sum.
fn activate(sums: &mut [f32], table: &Table, activation: Activation)
    ensures { sums.new ≡ map (λ x. activated activation (weights_scale ⊗ x)) sums.old }
{
    scale(sums);
    match activation {
        Activation::Tanh => numbers::lists::tansigs(sums, &table.entries),
        Activation::Sigmoid => numbers::lists::sigmoids(sums, &table.entries),
        Activation::Relu => numbers::lists::relus(sums),
    }
}

// A dense layer.
pub(crate) fn dense(
    output: &mut [f32],
    table: &Table,
    weights: &[u8],
    bias: &[u8],
    activation: Activation,
    input: &[f32],
)
    requires { DenseArrays (length output.old) (length weights.now) (length bias.now) (length input.now) }
    ensures { output.new
        ≡ dense_of weights.now bias.now activation input.now }
{
    let n = output.len();
    copy_weights(output, bias);
    matrix::mul_add_at(weights, n, 0, output, input).unwrap();
    activate(output, table, activation);
}

// Turns sums into gates.
fn update(gates: &mut [f32], table: &Table)
    ensures { gates.new ≡ loop (length gates.old) update_step gates.old }
{
    scale(gates);
    numbers::lists::sigmoids(gates, &table.entries);
}

// Multiplies each reset gate by the old state.
fn times(gates: &mut [f32], state: &[f32])
    requires { length gates.old ≡ length state.now }
    ensures { gates.new
        ≡ loop (length gates.old) (times_step state.now) gates.old }
{
    for (j, gate) in gates.iter_mut().enumerate() {
        *gate = state[j] * *gate;
    }
}

// Turns sums into reset gates, each multiplied by the old state.
fn reset(r: &mut [f32], state: &[f32], table: &Table)
    requires { length r.old ≡ length state.now }
    ensures { r.new
        ≡ loop (length r.old) (reset_step state.now) r.old }
{
    update(r, table);
    times(r, state);
}

// The new state, from the update gates and the candidates.
fn mix(state: &mut [f32], z: &[f32], new: &[f32])
    requires { (length z.now ≡ length state.old) × (length new.now ≡ length state.old) }
    ensures { state.new
        ≡ loop (length state.old) (mix_step z.now new.now) state.old }
{
    for (j, s) in state.iter_mut().enumerate() {
        let keep = z[j];
        *s = keep * *s + (1.0 - keep) * new[j];
    }
}

// The new state, from the update gates and the sums of the candidates; these become the candidates.
fn blend(state: &mut [f32], z: &[f32], h: &mut [f32], activation: Activation, table: &Table)
    requires { (length z.now ≡ length state.old) × (length h.old ≡ length state.old) }
    ensures { state.new
        ≡ loop (length state.old) (blend_step activation z.now h.old)
        state.old }
{
    activate(h, table, activation);
    mix(state, z, &h[..]);
}

// The sums of the gate at this offset: its bias, plus weights times input, plus recurrent weights times state.
fn gate_sums(out: &mut [f32], layer: Arrays<'_>, offset: usize, input: &[f32], state: &[f32])
    requires { GateFits (length out.old) (length layer.weights.now) (length layer.recurrent.now)
        (length layer.bias.now) offset (length input.now) (length state.now) }
    ensures { out.new
        ≡ gate_sums layer.entry.weights.now layer.entry.recurrent.now layer.entry.bias.now input.now
        (length out.old) offset state.now }
{
    let n = out.len();
    let stride = 3 * n;
    let end = offset + n;
    copy_weights(out, &layer.bias[offset..end]);
    matrix::mul_add_at(layer.weights, stride, offset, out, input).unwrap();
    matrix::mul_add_at(layer.recurrent, stride, offset, out, state).unwrap();
}

// A GRU layer with lent places for its gates.
// Stays: z, r and h are handed to this function alone, so a struct of the three would be opened where it arrives, and
// is no plainer.
pub(crate) fn gru(
    state: &mut [f32],
    z: &mut [f32],
    r: &mut [f32],
    h: &mut [f32],
    table: &Table,
    layer: Arrays<'_>,
    input: &[f32],
)
    requires arrays { GruArrays (length state.old) (length layer.weights.now) (length layer.recurrent.now)
        (length layer.bias.now) (length input.now) }
    requires lent { ScratchFits (length state.old) (length z.old) (length r.old) (length h.old) }
    ensures { state.new
        ≡ gru_of layer.entry.weights.now layer.entry.recurrent.now layer.entry.bias.now
        layer.entry.activation input.now state.old }
{
    let n = state.len();
    let last = 2 * n;
    gate_sums(z, layer, 0, input, &state[..]);
    update(z, table);
    gate_sums(r, layer, n, input, &state[..]);
    reset(r, &state[..], table);
    gate_sums(h, layer, last, input, &r[..]);
    blend(state, &z[..], h, layer.activation, table);
}

// A GRU layer with places of its own for its gates.
pub(crate) fn gru_alone(state: &mut [f32], table: &Table, layer: Arrays<'_>, input: &[f32])
    requires { (length state.old ≤ 128)
        × GruArrays (length state.old) (length layer.weights.now) (length layer.recurrent.now)
        (length layer.bias.now) (length input.now) }
    ensures { state.new
        ≡ gru_of layer.entry.weights.now layer.entry.recurrent.now layer.entry.bias.now
        layer.entry.activation input.now state.old }
{
    let n = state.len();
    let mut z = [0.0f32; 128];
    let mut r = [0.0f32; 128];
    let mut h = [0.0f32; 128];
    gru(
        state,
        &mut z[0..n],
        &mut r[0..n],
        &mut h[0..n],
        table,
        layer,
        input,
    );
}
