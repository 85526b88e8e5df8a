// What comes before and after the complex transform in the inverse transform: bins in, samples out.
// Stays: the loops of other_blocks and samples. Their numbers are counted with, to say where a four or a pair begins,
// so an iterator is no plainer.
ghost use Rattle.std.specs.Prelude.{◌≡◌, ◌+◌, ◌*◌, ◌-◌, ◌≤◌, ◌<◌, length};
ghost use Rattle.rules.specs.Tab.{tab};
ghost use Rattle.fft.specs.Fast.{bin_in, merged, merged_at, merged_of, sample_out};
ghost use Rattle.fft.specs.Single.{single, of};
ghost use Rattle.fft.specs.Private.{cx, complex_of, Laid};

use crate::complex::{Cx, put};

// Bin k of a spectrum, for k from 1 to 479.
#[tactic(auto, unfolding(crate::specs::Fast::bin_in))]
fn bin_in(x: &[f32; 961], k: usize) -> Cx
    requires { (0 < k) × (k < 480) }
    ensures { result ≡ cx (bin_in single x.now k) }
{
    Cx {
        re: x[2 * k - 1],
        im: x[2 * k],
    }
}

// Bin k of the pairs, from bins k and 480 - k of the samples. Its parts are swapped.
fn merge(c: &[f32; 960], k: usize, a: Cx, b: Cx) -> Cx
    requires { k ≤ 480 }
    ensures { result ≡ cx (merged single (of c.now) k (complex_of a) (complex_of b)) }
{
    let p = c[k];
    let q = c[k + 240];
    let dr = a.re - b.re;
    let di = a.im + b.im;
    Cx {
        re: a.im - b.im + (dr * p + di * q),
        im: a.re + b.re + (dr * q - di * p),
    }
}

// The same from a spectrum, for k from 1 to 479.
#[tactic(auto, using(crate::proofs::Ends::merged_of_lem))]
fn merged(c: &[f32; 960], x: &[f32; 961], k: usize) -> Cx
    requires { (0 < k) × (k < 480) }
    ensures { result ≡ cx (merged_at single (of c.now) x.now k) }
{
    let a = bin_in(x, k);
    let b = bin_in(x, 480 - k);
    merge(c, k, a, b)
}

// The same for k = 0. Bins 0 and 480 of a spectrum are real.
fn merged_0(c: &[f32; 960], x: &[f32; 961]) -> Cx
    ensures { result ≡ cx (merged_at single (of c.now) x.now 0) }
{
    let a = Cx { re: x[0], im: 0.0 };
    let b = Cx {
        re: x[959],
        im: 0.0,
    };
    merge(c, 0, a, b)
}

// Stores four of them.
fn merge_block(out: &mut [f32; 960], c: &[f32; 960], x: &[f32; 961], i: usize)
    requires laid { Laid 1 480 (λ b a. merged_at single (of c.now) x.now b) i out.old }
    requires room { (0 < i) × (i + 4 ≤ 480) }
    ensures { Laid 1 480 (λ b a. merged_at single (of c.now) x.now b) (i + 4)
        out.new }
{
    let w = merged(c, x, i);
    let y = merged(c, x, i + 1);
    let u = merged(c, x, i + 2);
    let v = merged(c, x, i + 3);
    put(out, i, w, y, u, v);
}

// Stores the first four.
fn first_block(out: &mut [f32; 960], c: &[f32; 960], x: &[f32; 961])
    ensures { Laid 1 480 (λ b a. merged_at single (of c.now) x.now b) 4
        out.new }
{
    let w = merged_0(c, x);
    let y = merged(c, x, 1);
    let u = merged(c, x, 2);
    let v = merged(c, x, 3);
    put(out, 0, w, y, u, v);
}

// Stores the others.
fn other_blocks(out: &mut [f32; 960], c: &[f32; 960], x: &[f32; 961])
    requires { Laid 1 480 (λ b a. merged_at single (of c.now) x.now b) 4 out.old }
    ensures { out.new ≡ merged_of single (of c.now) x.now }
{
    for b in 0..119 {
        merge_block(out, c, x, 4 * b + 4);
    }
}

// Stores all of them.
pub(crate) fn merge_all(out: &mut [f32; 960], c: &[f32; 960], x: &[f32; 961])
    ensures { out.new ≡ merged_of single (of c.now) x.now }
{
    first_block(out, c, x);
    other_blocks(out, c, x);
}

// The samples. The parts are swapped, so even samples are imaginary parts.
pub(crate) fn samples(out: &mut [f32; 960], z: &[f32; 960])
    ensures { out.new ≡ tab 960 (sample_out single z.now) }
{
    for i in 0..480 {
        out[2 * i] = z[480 + i];
        out[2 * i + 1] = z[i];
    }
}
