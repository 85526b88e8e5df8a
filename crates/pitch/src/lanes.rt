// The correlations at N neighbouring lags, each a sum of its own in the order of the index. The N share each number
// that they multiply by, and none waits for another. So with N of 16 four registers of four are busy at a time.
ghost use Rattle.std.specs.Prelude.{◌≡◌, ◌+◌, ◌≤◌, length};
ghost use Rattle.pitch.specs.Private.{with_products, lags_from, stored};

// Adds the next product to each of N sums.
fn add_products<const N: usize>(sums: &mut [f32; N], x: f32, ys: &[f32], p: usize)
    requires { p + N ≤ length ys.now }
    ensures { sums.new ≡ with_products ys.now x p sums.old }
{
    for (k, sum) in sums.iter_mut().enumerate() {
        *sum = *sum + x * ys[p + k];
    }
}

// The correlations at N neighbouring lags.
pub(crate) fn corr_lags<const N: usize>(xs: &[f32], ys: &[f32], i: usize) -> [f32; N]
    requires { i + N + length xs.now ≤ length ys.now + 1 }
    ensures { result ≡ lags_from xs.now ys.now i N }
{
    let mut sums = [0.0f32; N];
    for (j, x) in xs.iter().enumerate() {
        add_products(&mut sums, *x, ys, i + j);
    }
    sums
}

// Stores N neighbouring numbers.
pub(crate) fn put<const N: usize>(out: &mut [f32], i: usize, v: &[f32; N])
    requires { i + N ≤ length out.old }
    ensures { out.new ≡ stored out.old i v.now }
{
    out[i..i + N].copy_from_slice(v);
}
