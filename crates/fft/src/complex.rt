// A complex number, and lists of 480 of them: 480 real parts, and then 480 imaginary parts.
// Stays: `i < 480` and `k < 480`, and that k is not 0, are asked here, in forwards and in inverses, of numbers that are
// calculated with (480 - k, 2 * k - 1). A type for them would be made and opened at each call, and is no plainer.
ghost use Rattle.std.specs.Prelude.{◌≡◌, ◌+◌, ◌≤◌, ◌<◌, length};
ghost use Rattle.rules.specs.F32.{◌⊕◌, ◌⊖◌, ◌⊗◌};
ghost use Rattle.fft.specs.Fast.{complex_at, turned_back};
ghost use Rattle.fft.specs.Single.{single, of};
ghost use Rattle.fft.specs.Private.{cx, complex_of, put_four, put_complex};

use std::ops::{Add, Sub};

// A complex number.
#[derive(Clone, Copy)]
pub(crate) struct Cx {
    // Its real part.
    pub re: f32,
    // Its imaginary part.
    pub im: f32,
}

impl Add for Cx {
    type Output = Cx;

    ghost add_gives = { λ x y r. r ≡ record { re = x.re ⊕ y.re; im = x.im ⊕ y.im } };

    fn add(self, y: Cx) -> Cx {
        Cx {
            re: self.re + y.re,
            im: self.im + y.im,
        }
    }
}

impl Sub for Cx {
    type Output = Cx;

    ghost sub_gives = { λ x y r. r ≡ record { re = x.re ⊖ y.re; im = x.im ⊖ y.im } };

    fn sub(self, y: Cx) -> Cx {
        Cx {
            re: self.re - y.re,
            im: self.im - y.im,
        }
    }
}

impl Cx {
    // A real number times this one.
    pub(crate) fn times(self, a: f32) -> Cx
        ensures { result ≡ record { re = a ⊗ self.re; im = a ⊗ self.im } }
    {
        Cx {
            re: a * self.re,
            im: a * self.im,
        }
    }

    // This one plus i times y.
    pub(crate) fn plus_i(self, y: Cx) -> Cx
        ensures { result ≡ record { re = self.re ⊖ y.im; im = self.im ⊕ y.re } }
    {
        Cx {
            re: self.re - y.im,
            im: self.im + y.re,
        }
    }

    // This one, turned back by t/960 of a turn.
    pub(crate) fn turned_back(self, c: &[f32; 960], t: usize) -> Cx
        requires { t < 720 }
        ensures { result ≡ cx (turned_back single (of c.now) t (complex_of self)) }
    {
        let p = c[t];
        let q = c[t + 240];
        Cx {
            re: self.re * p - self.im * q,
            im: self.re * q + self.im * p,
        }
    }

    // This one minus i times y.
    pub(crate) fn minus_i(self, y: Cx) -> Cx
        ensures { result ≡ record { re = self.re ⊕ y.im; im = self.im ⊖ y.re } }
    {
        Cx {
            re: self.re + y.im,
            im: self.im - y.re,
        }
    }
}

// Entry i of a list.
pub(crate) fn entry(z: &[f32; 960], i: usize) -> Cx
    requires { i < 480 }
    ensures { result ≡ cx (complex_at single z.now i) }
{
    Cx {
        re: z[i],
        im: z[480 + i],
    }
}

// Entry i, turned back by t/960 of a turn.
pub(crate) fn turned(c: &[f32; 960], z: &[f32; 960], i: usize, t: usize) -> Cx
    requires { (i < 480) × (t < 720) }
    ensures { result ≡ cx (turned_back single (of c.now) t (complex_at single z.now i)) }
{
    entry(z, i).turned_back(c, t)
}

// Stores four neighbouring numbers.
// Stays: four stores in a row, as in their definition. An array made to be copied is no plainer.
#[tactic(auto, unfolding(crate::specs::Private::put_four))]
pub(crate) fn put_four(out: &mut [f32], at: usize, a: f32, b: f32, c: f32, d: f32)
    requires { at + 4 ≤ length out.old }
    ensures { out.new ≡ put_four out.old at a b c d }
{
    out[at] = a;
    out[at + 1] = b;
    out[at + 2] = c;
    out[at + 3] = d;
}

// Stores four neighbouring complex numbers.
#[tactic(auto, unfolding(crate::specs::Private::put_complex))]
pub(crate) fn put(out: &mut [f32; 960], at: usize, w: Cx, x: Cx, y: Cx, v: Cx)
    requires { at + 4 ≤ 480 }
    ensures { out.new ≡ put_complex out.old at w x y v }
{
    put_four(out, at, w.re, x.re, y.re, v.re);
    put_four(out, 480 + at, w.im, x.im, y.im, v.im);
}
