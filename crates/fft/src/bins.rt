// The transforms of two, three, four and five numbers.
ghost use Rattle.std.specs.Prelude.{◌≡◌};
ghost use Rattle.fft.specs.Fast.{of_two, of_three, of_four, of_five};
ghost use Rattle.fft.specs.Single.{single, of};
ghost use Rattle.fft.specs.Private.{complex_of, bins};

use crate::complex::Cx;

// The transform of two numbers.
#[tactic(auto, unfolding(rules::specs::Tab::tab))]
pub(crate) fn two(a: Cx, b: Cx) -> [Cx; 2]
    ensures { result ≡ bins 2 (of_two single (complex_of a) (complex_of b)) }
{
    [a + b, a - b]
}

// The transform of three numbers.
#[tactic(auto, unfolding(rules::specs::Tab::tab))]
pub(crate) fn three(c: &[f32; 960], a: Cx, b: Cx, d: Cx) -> [Cx; 3]
    ensures { result ≡ bins 3 (of_three single (of c.now) (complex_of a) (complex_of b) (complex_of d)) }
{
    let s = b + d;
    let u = a + s.times(c[320]);
    let v = (b - d).times(c[560]);
    [a + s, u.plus_i(v), u.minus_i(v)]
}

// The transform of four numbers.
#[tactic(auto, unfolding(rules::specs::Tab::tab))]
pub(crate) fn four(a: Cx, b: Cx, d: Cx, e: Cx) -> [Cx; 4]
    ensures { result ≡ bins 4 (of_four single (complex_of a) (complex_of b) (complex_of d) (complex_of e)) }
{
    let p = a + d;
    let q = a - d;
    let u = b + e;
    let v = b - e;
    [p + u, q.minus_i(v), p - u, q.plus_i(v)]
}

// The transform of five numbers.
#[tactic(auto, unfolding(rules::specs::Tab::tab))]
pub(crate) fn five(c: &[f32; 960], a: Cx, b: Cx, d: Cx, e: Cx, f: Cx) -> [Cx; 5]
    ensures { result ≡ bins 5
        (of_five single (of c.now) (complex_of a) (complex_of b) (complex_of d) (complex_of e) (complex_of f)) }
{
    let p = b + f;
    let q = d + e;
    let u = a + (p.times(c[192]) + q.times(c[384]));
    let v = a + (p.times(c[384]) + q.times(c[192]));
    let g = (b - f).times(c[432]) + (d - e).times(c[624]);
    let h = (b - f).times(c[624]) - (d - e).times(c[432]);
    [
        a + (p + q),
        u.plus_i(g),
        v.plus_i(h),
        v.minus_i(h),
        u.minus_i(g),
    ]
}
