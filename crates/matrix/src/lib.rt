// The Rust's `SubMatrix`: borrowed weights, a stride and an offset. The work is done by `sums::mul_add` on plain
// slices.
#![tactic(auto)]

ghost use Rattle.std.specs.Prelude.{◌≡◌};
ghost use Rattle.matrix.specs.Sums.{MulAdd};

mod lanes;
pub mod sums;

use rules::Refusal;

// Some rows of a matrix that is stored column by column.
#[derive(Drop)]
pub struct SubMatrix<'a> {
    // The weights, a byte each.
    pub data: &'a [u8],
    // The length of a column.
    pub stride: usize,
    // The row of a column with which to start.
    pub offset: usize,
}

// The matrix with these weights.
pub fn matrix<'a>(weights: &'a [u8], stride: usize, offset: usize) -> SubMatrix<'a>
    ensures { (result.data ≡ weights.entry) × (result.stride ≡ stride) × (result.offset ≡ offset) }
{
    SubMatrix {
        data: weights,
        stride,
        offset,
    }
}

impl<'a> SubMatrix<'a> {
    // output[j] += data[i * stride + offset + j] * input[i], for each i in order. Refused, with the output unchanged,
    // if the lengths do not fit.
    pub fn mul_add(self, output: &mut [f32], input: &[f32]) -> Result<(), Refusal>
        ensures { MulAdd output.old self.entry.data.now self.entry.stride
            self.entry.offset
            input.now
            result output.new }
    {
        sums::mul_add(output, self.data, self.stride, self.offset, input)
    }
}

// The same on a slice and the two numbers.
// Stays: the product of SubMatrix::mul_add and sums::mul_add. All three are public, and a public function keeps its
// name.
pub fn mul_add_at(
    weights: &[u8],
    stride: usize,
    offset: usize,
    output: &mut [f32],
    input: &[f32],
) -> Result<(), Refusal>
    ensures { MulAdd output.old weights.now stride offset input.now result
        output.new }
{
    matrix(weights, stride, offset).mul_add(output, input)
}
