// numbers: activations, square root, maximum and minimum, and the filter. Refusal 5: a slice has a wrong length.
ghost use Rattle.std.specs.Prelude.{◌≡◌, length};
ghost use Rattle.std.specs.Float.{binary32};
ghost use Rattle.rules.specs.Leaf.{Leaf, ◌leaving◌};
ghost use Rattle.numbers.specs.Activations.{tansig_approx, sigmoid_approx};
ghost use Rattle.numbers.specs.Filter.{memory_after, outputs};
ghost use Rattle.numbers.specs.Larger.{larger, smaller, clamped, rectified};
ghost use Rattle.numbers.specs.Narrowed.{narrowed};
ghost use Rattle.numbers.specs.Root.{root};
ghost use Rattle.numbers.specs.Filter.{memory_of, memory_list};
ghost use Rattle.export.specs.OfNumbers.{BiquadFits, biquad_of};

use numbers::{Biquad, Memory};
use rules::Refusal;

// The hyperbolic tangent by nnnoiseless's table and interpolation. NaN gives 0.
#[unsafe(no_mangle)]
pub extern "C" fn tuppence_tansig(x: f32) -> f32
    ensures { result ≡ tansig_approx x }
{
    numbers::tansig_approx(x)
}

// The sigmoid, by the same table. NaN gives 0.5.
#[unsafe(no_mangle)]
pub extern "C" fn tuppence_sigmoid(x: f32) -> f32
    ensures { result ≡ sigmoid_approx x }
{
    numbers::sigmoid_approx(x)
}

// x if it is above 0, otherwise 0. NaN gives 0.
#[unsafe(no_mangle)]
pub extern "C" fn tuppence_relu(x: f32) -> f32
    ensures { result ≡ rectified x }
{
    numbers::relu(x)
}

// The square root, rounded to nearest.
#[unsafe(no_mangle)]
pub extern "C" fn tuppence_sqrt(x: f32) -> f32
    ensures { result ≡ root binary32 x }
{
    numbers::sqrt(x)
}

// The larger of two numbers. +0 is larger than -0. If one is NaN, the other one.
#[unsafe(no_mangle)]
pub extern "C" fn tuppence_max(a: f32, b: f32) -> f32
    ensures { result ≡ larger a b }
{
    numbers::max(a, b)
}

// The smaller of two numbers; the left one if they compare equal. If one is NaN, the other one.
#[unsafe(no_mangle)]
pub extern "C" fn tuppence_min(a: f32, b: f32) -> f32
    ensures { result ≡ smaller a b }
{
    numbers::min(a, b)
}

// x limited to the range from low to high. NaN stays NaN.
#[unsafe(no_mangle)]
pub extern "C" fn tuppence_clamp(x: f32, low: f32, high: f32) -> f32
    ensures { result ≡ clamped x low high }
{
    numbers::clamp(x, low, high)
}

// The nearest f32 to an f64.
#[unsafe(no_mangle)]
pub extern "C" fn tuppence_narrow(x: f64) -> f32
    ensures { result ≡ narrowed x }
{
    numbers::narrow(x)
}

// A filter of the second order. `output` is as long as `input`. `memory` has m0 and m1, and gets the new ones.
// `coefficients` are a0, a1, b0 and b1.
#[unsafe(no_mangle)]
pub extern "C" fn tuppence_filter(
    output: &mut [f32],
    memory: &mut [f32],
    coefficients: &[f32],
    input: &[f32],
) -> u32
    ensures { Leaf
        (BiquadFits
        (length output.old) (length memory.old) (length coefficients.now)
        (length input.now))
        (result leaving output.new leaving memory.new)
        (0 leaving outputs (biquad_of coefficients.now) (memory_of memory.old) input.now
        leaving memory_list (memory_after (biquad_of coefficients.now) (memory_of memory.old)
        input.now))
        (5 leaving output.old leaving memory.old) }
{
    let (Some(kept), Some(four)) = (memory.as_array::<2>(), coefficients.as_array::<4>()) else {
        return Refusal::WrongLength.number();
    };
    let [m0, m1] = *kept;
    let [a0, a1, b0, b1] = *four;
    let biquad = Biquad { a0, a1, b0, b1 };
    match biquad.filter(output, Memory { m0, m1 }, input) {
        Ok(after) => {
            memory.copy_from_slice(&[after.m0, after.m1]);
            0
        }
        Err(refusal) => refusal.number(),
    }
}
