// Writes a model file (request 01): six layers in a row, each a header of three bytes and its arrays. All is tested
// before a byte is written.
ghost use Rattle.std.specs.Prelude.{◌≡◌, [], ◌∷◌, ◌+◌, ◌≤◌, ◌<◌, ltb, length};
ghost use Rattle.rules.specs.Leaf.{◌leaving◌};
ghost use Rattle.rules.specs.Refusal.{told};
ghost use Rattle.rules.specs.Lists.{Bytes, sum};
ghost use Rattle.model.specs.Model.{kinds, match_faults};
ghost use Rattle.model.specs.Writer.{arrays_of, layer_faults, in_layer, row_faults, counts_given, writer_faults};
ghost use Rattle.model.specs.Writer.{write_model};
ghost use Rattle.model.specs.Summary.{layer_told};
ghost use Rattle.model.specs.Private.{fault_in, Few, counts_there, header_bytes, layer_bytes, three_bytes, Put};

use crate::{Counts, Kind, Misread};
use rules::Refusal;

// Refusals 12 to 16 of a layer whose arrays have these lengths.
fn layer_fault(
    kind: Kind,
    inputs: usize,
    neurons: usize,
    number: u32,
    weights: usize,
    recurrent: usize,
    bias: usize,
) -> Result<(), Refusal>
    ensures { told result ≡ fault_in (layer_faults kind inputs neurons number (weights ∷ recurrent ∷ bias ∷ [])) }
{
    crate::header_of(inputs, neurons, number, 0)?;
    let n = crate::array_lengths(kind, inputs, neurons);
    if weights != n[0] || recurrent != n[1] || bias != n[2] {
        return Err(Refusal::ModelArray);
    }
    Ok(())
}

// Refusals 12 to 16 of each layer in turn.
fn layers_fault(shapes: &[u32], lengths: [usize; 18]) -> Result<(), Misread>
    requires { length shapes.now ≡ 18 }
    ensures { layer_told result ≡ fault_in (row_faults 0 kinds shapes.now lengths) }
{
    let kinds = crate::kinds_in_row();
    for (layer, kind) in kinds.iter().enumerate() {
        let at = 3 * layer;
        let fits = layer_fault(
            *kind,
            shapes[at] as usize,
            shapes[at + 1] as usize,
            shapes[at + 2],
            lengths[at],
            lengths[at + 1],
            lengths[at + 2],
        );
        if let Err(refusal) = fits {
            let layer = layer as u8;
            return Err(Misread { refusal, layer });
        }
    }
    Ok(())
}

fn counts_there(shapes: &[u32], at: usize) -> Counts
    requires { at + 1 < length shapes.now }
    ensures { result ≡ counts_there shapes.now at }
{
    Counts {
        inputs: shapes[at] as usize,
        neurons: shapes[at + 1] as usize,
    }
}

fn counts_given(shapes: &[u32]) -> [Counts; 6]
    requires { length shapes.now ≡ 18 }
    ensures { result ≡ counts_given kinds shapes.now }
{
    [
        counts_there(shapes, 0),
        counts_there(shapes, 3),
        counts_there(shapes, 6),
        counts_there(shapes, 9),
        counts_there(shapes, 12),
        counts_there(shapes, 15),
    ]
}

// Refusals 18 to 22, with layer 6.
fn model_fault(counts: [Counts; 6]) -> Result<(), Misread>
    requires { Few counts }
    ensures { layer_told result ≡ fault_in (in_layer 6 (match_faults counts 0)) }
{
    match crate::match_fault(counts, 0) {
        Ok(()) => Ok(()),
        Err(refusal) => Err(Misread { refusal, layer: 6 }),
    }
}

// Whether a buffer is shorter than the file: six headers, and the arrays. Nothing is added that could wrap.
fn too_short(buffer: usize, lengths: [usize; 18]) -> bool
    ensures { result ≡ ltb buffer (18 + sum lengths) }
{
    let mut left = buffer;
    for length in lengths {
        if left < length {
            return true;
        }
        left -= length;
    }
    left < 18
}

// Every refusal in turn.
fn fault_of(shapes: &[u32], lengths: [usize; 18], buffer: usize) -> Result<(), Misread>
    requires { length shapes.now ≡ 18 }
    ensures { layer_told result ≡ fault_in (writer_faults shapes.now lengths (18 + sum lengths) buffer) }
{
    layers_fault(shapes, lengths)?;
    model_fault(counts_given(shapes))?;
    if too_short(buffer, lengths) {
        return Err(Misread {
            refusal: Refusal::ModelNoRoom,
            layer: 6,
        });
    }
    Ok(())
}

// Writes some bytes at a place, and says where they end.
#[tactic(auto, unfolding(crate::specs::Private::overwritten))]
fn put(out: &mut [u8], at: usize, bytes: &[u8]) -> usize
    requires { at + length bytes.now ≤ length out.old }
    ensures { Put at bytes.now out.old result out.new }
{
    let end = at + bytes.len();
    out[at..end].copy_from_slice(bytes);
    end
}

fn header_bytes(shapes: &[u32], first: usize) -> [u8; 3]
    requires { (first + 2 < length shapes.now) × Bytes shapes.now }
    ensures { result ≡ header_bytes shapes.now first }
{
    [
        shapes[first] as u8,
        shapes[first + 1] as u8,
        shapes[first + 2] as u8,
    ]
}

// Stays: a layer's arrays come one by one, here and in put_three, as `write` has them. A struct would be made there and
// opened here, and put_three's contract would name its fields, which is no plainer.
fn put_layer(
    out: &mut [u8],
    at: usize,
    shapes: &[u32],
    first: usize,
    weights: &[u8],
    recurrent: &[u8],
    bias: &[u8],
) -> usize
    requires { (first + 2 < length shapes.now) × Bytes shapes.now
        × (at + length (layer_bytes shapes.now first weights.now recurrent.now bias.now) ≤ length out.old) }
    ensures { Put at (layer_bytes shapes.now first weights.now recurrent.now
        bias.now)
        out.old result out.new }
{
    let header = header_bytes(shapes, first);
    let at = put(out, at, &header);
    let at = put(out, at, weights);
    let at = put(out, at, recurrent);
    put(out, at, bias)
}

// Three layers in a row, the first of them by the shapes from a place on.
fn put_three(
    out: &mut [u8],
    at: usize,
    shapes: &[u32],
    first: usize,
    w0: &[u8],
    r0: &[u8],
    b0: &[u8],
    w1: &[u8],
    r1: &[u8],
    b1: &[u8],
    w2: &[u8],
    r2: &[u8],
    b2: &[u8],
) -> usize
    requires { (first + 8 < length shapes.now) × Bytes shapes.now
        × (at + length (three_bytes shapes.now first w0.now r0.now b0.now w1.now r1.now b1.now w2.now
        r2.now b2.now)
        ≤ length out.old) }
    ensures { Put at (three_bytes shapes.now first w0.now r0.now
        b0.now
        w1.now r1.now b1.now w2.now r2.now b2.now)
        out.old result out.new }
{
    let at = put_layer(out, at, shapes, first, w0, r0, b0);
    let at = put_layer(out, at, shapes, first + 3, w1, r1, b1);
    put_layer(out, at, shapes, first + 6, w2, r2, b2)
}

// Stays: an argument for each array, as the C interface has them.
// Eighteen numbers, inputs, neurons and activation of each layer, and the arrays as they stand: the file is written at
// the front of the buffer. Another number of shapes is refused with 5 and layer 0.
pub fn write(
    out: &mut [u8],
    shapes: &[u32],
    w0: &[u8],
    b0: &[u8],
    w1: &[u8],
    r1: &[u8],
    b1: &[u8],
    w2: &[u8],
    r2: &[u8],
    b2: &[u8],
    w3: &[u8],
    r3: &[u8],
    b3: &[u8],
    w4: &[u8],
    b4: &[u8],
    w5: &[u8],
    b5: &[u8],
) -> Result<(), Misread>
    ensures { (layer_told result leaving out.new) ≡ write_model shapes.now
        (arrays_of w0.now b0.now w1.now r1.now b1.now
        w2.now r2.now b2.now w3.now r3.now b3.now
        w4.now b4.now w5.now b5.now) out.old }
{
    if shapes.len() != 18 {
        return Err(Misread {
            refusal: Refusal::WrongLength,
            layer: 0,
        });
    }
    let lengths = [
        w0.len(),
        0,
        b0.len(),
        w1.len(),
        r1.len(),
        b1.len(),
        w2.len(),
        r2.len(),
        b2.len(),
        w3.len(),
        r3.len(),
        b3.len(),
        w4.len(),
        0,
        b4.len(),
        w5.len(),
        0,
        b5.len(),
    ];
    fault_of(shapes, lengths, out.len())?;
    let at = put_three(out, 0, shapes, 0, w0, &w0[..0], b0, w1, r1, b1, w2, r2, b2);
    put_three(
        out,
        at,
        shapes,
        9,
        w3,
        r3,
        b3,
        w4,
        &w4[..0],
        b4,
        w5,
        &w5[..0],
        b5,
    );
    Ok(())
}
