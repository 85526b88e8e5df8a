// What comes before and after the complex transform in the forward transform: samples in, bins out.
// Stays: the loops of pack and middle_bins. Their numbers are counted with, to say where a four begins, so an iterator
// is no plainer.
ghost use Rattle.std.specs.Prelude.{◌≡◌, ◌+◌, ◌*◌, ◌-◌, ◌≤◌, ◌<◌, length};
ghost use Rattle.rules.specs.Tab.{tab};
ghost use Rattle.fft.specs.Fast.{pair, as_complex, split, bin_out, number_out};
ghost use Rattle.fft.specs.Single.{single, of};
ghost use Rattle.fft.specs.Private.{cx, complex_of, Laid, Filled};

use crate::complex::{Cx, entry, put, put_four};

// Two samples as a complex number.
fn pair(x: &[f32; 960], i: usize) -> Cx
    requires { i < 480 }
    ensures { result ≡ cx (pair single x.now i) }
{
    Cx {
        re: x[2 * i],
        im: x[2 * i + 1],
    }
}

// Four of them.
fn pack_block(out: &mut [f32; 960], x: &[f32; 960], i: usize)
    requires laid { Laid 1 480 (λ b a. pair single x.now b) i out.old }
    requires room { i + 4 ≤ 480 }
    ensures { Laid 1 480 (λ b a. pair single x.now b) (i + 4) out.new }
{
    let w = pair(x, i);
    let y = pair(x, i + 1);
    let u = pair(x, i + 2);
    let v = pair(x, i + 3);
    put(out, i, w, y, u, v);
}

// All samples as complex numbers.
pub(crate) fn pack(out: &mut [f32; 960], x: &[f32; 960])
    ensures { out.new ≡ as_complex single x.now }
{
    for b in 0..120 {
        pack_block(out, x, 4 * b);
    }
}

// Bin k of the samples from bins k and 480 - k of the pairs.
fn split(c: &[f32; 960], k: usize, a: Cx, b: Cx) -> Cx
    requires { k ≤ 480 }
    ensures { result ≡ cx (split single (of c.now) k (complex_of a) (complex_of b)) }
{
    let h = c[160];
    let even = Cx {
        re: a.re + b.re,
        im: a.im - b.im,
    };
    let odd = Cx {
        re: a.im + b.im,
        im: b.re - a.re,
    };
    even.times(h) + odd.times(h).turned_back(c, k)
}

// Bin k, for k from 1 to 479.
fn bin(c: &[f32; 960], z: &[f32; 960], k: usize) -> Cx
    requires { (0 < k) × (k < 480) }
    ensures { result ≡ cx (bin_out single (of c.now) z.now k) }
{
    let a = entry(z, k);
    let b = entry(z, 480 - k);
    split(c, k, a, b)
}

// Bin 480. The rule of the others would read after the end.
fn bin_480(c: &[f32; 960], z: &[f32; 960]) -> Cx
    ensures { result ≡ cx (bin_out single (of c.now) z.now 480) }
{
    let a = entry(z, 0);
    split(c, 480, a, a)
}

// Stores four bins.
fn four_bins(out: &mut [f32; 961], c: &[f32; 960], z: &[f32; 960], k: usize)
    requires filled { Filled 961 (number_out single (of c.now) z.now) (2 * k - 1) out.old }
    requires k_range { (0 < k) × (k + 4 ≤ 480) }
    ensures { Filled 961 (number_out single (of c.now) z.now) (2 * k + 7)
        out.new }
{
    let w = bin(c, z, k);
    let x = bin(c, z, k + 1);
    let y = bin(c, z, k + 2);
    let v = bin(c, z, k + 3);
    put_four(out, 2 * k - 1, w.re, w.im, x.re, x.im);
    put_four(out, 2 * k + 3, y.re, y.im, v.re, v.im);
}

// Stores bins 477 to 480.
fn last_bins(out: &mut [f32; 961], c: &[f32; 960], z: &[f32; 960])
    requires { Filled 961 (number_out single (of c.now) z.now) 953 out.old }
    ensures { Filled 961 (number_out single (of c.now) z.now) 961 out.new }
{
    let w = bin(c, z, 477);
    let x = bin(c, z, 478);
    let y = bin(c, z, 479);
    let v = bin_480(c, z);
    put_four(out, 953, w.re, w.im, x.re, x.im);
    put_four(out, 957, y.re, y.im, v.re, v.im);
}

// Stores bins 1 to 476.
fn middle_bins(out: &mut [f32; 961], c: &[f32; 960], z: &[f32; 960])
    requires { Filled 961 (number_out single (of c.now) z.now) 1 out.old }
    ensures { Filled 961 (number_out single (of c.now) z.now) 953 out.new }
{
    for b in 0..119 {
        four_bins(out, c, z, 4 * b + 1);
    }
}

// Stores bin 0.
fn bin_0(out: &mut [f32; 961], c: &[f32; 960], z: &[f32; 960])
    ensures { Filled 961 (number_out single (of c.now) z.now) 1 out.new }
{
    out[0] = z[0] + z[480];
}

// Stores all bins.
#[tactic(auto, using(crate::proofs::Laying::filled_all))]
pub(crate) fn spectrum(out: &mut [f32; 961], c: &[f32; 960], z: &[f32; 960])
    ensures { out.new ≡ tab 961 (number_out single (of c.now) z.now) }
{
    bin_0(out, c, z);
    middle_bins(out, c, z);
    last_bins(out, c, z);
}
