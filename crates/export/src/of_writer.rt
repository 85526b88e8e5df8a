// model: writes a model file from the sizes, activations and arrays of its six layers. Refusals: 5, `shapes` has a
// wrong length; otherwise r + 65,536 times the layer, with r 12 to 22 as when a model is read, or 24 if `out` is too
// short.
ghost use Rattle.std.specs.Prelude.{◌≡◌};
ghost use Rattle.rules.specs.Leaf.{◌leaving◌};
ghost use Rattle.model.specs.Writer.{arrays_of, write_model};

use model::told;

// `shapes` has 18 numbers: inputs, neurons and activation of each layer. The arrays are signed bytes: `w0`, `b0`
// (weights and biases) of input_dense; `w1`, `r1`, `b1` (weights, recurrent weights, biases) of vad_gru; `w2`, `r2`,
// `b2` of noise_gru; `w3`, `r3`, `b3` of denoise_gru; `w4`, `b4` of denoise_output; `w5`, `b5` of vad_output. `out`
// has the length of the file; what it has beyond that stays.
#[unsafe(no_mangle)]
pub extern "C" fn tuppence_write_model(
    out: &mut [u8],
    shapes: &[u32],
    w0: &[u8],
    b0: &[u8],
    w1: &[u8],
    r1: &[u8],
    b1: &[u8],
    w2: &[u8],
    r2: &[u8],
    b2: &[u8],
    w3: &[u8],
    r3: &[u8],
    b3: &[u8],
    w4: &[u8],
    b4: &[u8],
    w5: &[u8],
    b5: &[u8],
) -> u32
    ensures { (result leaving out.new) ≡ write_model shapes.now
        (arrays_of w0.now b0.now w1.now r1.now b1.now
        w2.now r2.now b2.now w3.now r3.now b3.now
        w4.now b4.now w5.now b5.now) out.old }
{
    told(model::writer::write(
        out, shapes, w0, b0, w1, r1, b1, w2, r2, b2, w3, r3, b3, w4, b4, w5, b5,
    ))
}
