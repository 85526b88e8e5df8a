// The multiply-add over plain slices.
ghost use Rattle.std.specs.Prelude.{◌≡◌, ◌+◌, ◌*◌, ◌%◌, ◌≤◌, eqb, length};
ghost use Rattle.matrix.specs.Sums.{of_byte, add_column, mul_add, MulAddFits, MulAdd};

use rules::Refusal;

// A byte of the model as the weight that it stands for. There is no branch, so that loops over it are vectorised.
pub fn weight(b: u8) -> f32
    ensures { result ≡ of_byte b }
{
    (((b as u16 + 128) % 256) as i16 - 128) as f32
}

// One column of `mul_add`.
fn add_column(out: &mut [f32], col: &[u8], x: f32)
    requires { length out.old ≤ length col.now }
    ensures { out.new ≡ add_column out.old col.now x }
{
    for (j, sum) in out.iter_mut().enumerate() {
        *sum = *sum + weight(col[j]) * x;
    }
}

// Two columns of `mul_add` in one pass: at each place first the one, then the other.
fn add_two(out: &mut [f32], first: &[u8], x: f32, second: &[u8], y: f32)
    requires { (length out.old ≤ length first.now) × (length out.old ≤ length second.now) }
    ensures { out.new
        ≡ add_column (add_column out.old first.now x) second.now y }
{
    for (j, sum) in out.iter_mut().enumerate() {
        *sum = *sum + weight(first[j]) * x + weight(second[j]) * y;
    }
}

// `mul_add` column by column, for lengths that fit.
// Stays: two columns a turn, and their places reckoned from the turn's number. Chunks of the input would still need it,
// and are no plainer.
fn columns(out: &mut [f32], weights: &[u8], stride: usize, offset: usize, input: &[f32])
    requires { MulAddFits (length out.old) (length weights.now) stride offset (length input.now) }
    ensures { out.new
        ≡ mul_add out.old weights.now stride offset input.now }
{
    let mut i = 0usize;
    while i + 1 < input.len() {
        let start = i * stride + offset;
        let next = start + stride;
        add_two(
            out,
            &weights[start..],
            input[i],
            &weights[next..],
            input[i + 1],
        );
        i += 2;
    }
    if i < input.len() {
        let start = i * stride + offset;
        add_column(out, &weights[start..], input[i]);
    }
}

// How many of n sums are computed sixteen at a time.
fn wide_of(n: usize) -> usize
    ensures { (result ≤ n) × (result ≤ 128) × (result % 16 ≡ 0) }
{
    n.min(128) / 16 * 16
}

// `mul_add`: as many sums as there are lent places are computed sixteen at a time, and the others column by column.
// Stays: weights, stride and offset go one by one through the private functions here and in lanes, as `mul_add` gets
// them and as its definition names them. `both` and `blocks` change the offset on the way, so a struct of the three is
// no plainer.
fn both(
    out: &mut [f32],
    kept: &mut [f32],
    weights: &[u8],
    stride: usize,
    offset: usize,
    input: &[f32],
)
    requires { (length kept.old ≤ length out.old) × (length kept.old % 16 ≡ 0)
        × MulAddFits (length out.old) (length weights.now) stride offset (length input.now) }
    ensures { out.new
        ≡ mul_add out.old weights.now stride offset input.now }
{
    let n = out.len();
    let m = kept.len();
    let from = offset + m;
    crate::lanes::wide(&mut out[0..m], kept, weights, stride, offset, input);
    if m < n {
        columns(&mut out[m..n], weights, stride, from, input);
    }
}

// `mul_add` for lengths that fit.
fn mul_add_core(out: &mut [f32], weights: &[u8], stride: usize, offset: usize, input: &[f32])
    requires { MulAddFits (length out.old) (length weights.now) stride offset (length input.now) }
    ensures { out.new
        ≡ mul_add out.old weights.now stride offset input.now }
{
    let m = wide_of(out.len());
    let mut kept = [0.0f32; 128];
    both(out, &mut kept[0..m], weights, stride, offset, input);
}

// Whether len is a * b, even if the product is larger than any usize.
fn is_product(len: usize, a: usize, b: usize) -> bool
    ensures { result ≡ eqb len (a * b) }
{
    a.checked_mul(b) == Some(len)
}

// out[j] += weights[i * stride + offset + j] * input[i], for each i in order. Refused, with out unchanged, if the
// lengths do not fit.
pub fn mul_add(
    out: &mut [f32],
    weights: &[u8],
    stride: usize,
    offset: usize,
    input: &[f32],
) -> Result<(), Refusal>
    ensures { MulAdd out.old weights.now stride offset input.now result
        out.new }
{
    let rows_fit = offset <= stride && out.len() <= stride - offset;
    if !(rows_fit && is_product(weights.len(), stride, input.len())) {
        return Err(Refusal::WrongLength);
    }
    mul_add_core(out, weights, stride, offset, input);
    Ok(())
}
