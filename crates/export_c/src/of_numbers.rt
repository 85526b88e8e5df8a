// The functions of crates/export/src/of_numbers.rt for C: the same names and contracts.
// tools/make_export_c.sh makes this file.
ghost use Rattle.std.specs.Prelude.{◌≡◌, length};
ghost use Rattle.std.specs.Float.{binary32};
ghost use Rattle.rules.specs.Leaf.{Leaf, ◌leaving◌};
ghost use Rattle.numbers.specs.Activations.{tansig_approx, sigmoid_approx};
ghost use Rattle.numbers.specs.Filter.{memory_after, outputs};
ghost use Rattle.numbers.specs.Larger.{larger, smaller, clamped, rectified};
ghost use Rattle.numbers.specs.Narrowed.{narrowed};
ghost use Rattle.numbers.specs.Root.{root};
ghost use Rattle.numbers.specs.Filter.{memory_of, memory_list};
ghost use Rattle.export.specs.OfNumbers.{BiquadFits, biquad_of};

#[unsafe(no_mangle)]
pub extern "C" fn tuppence_tansig(x: f32) -> f32
    ensures { result ≡ tansig_approx x }
{
    export::of_numbers::tuppence_tansig(x)
}

#[unsafe(no_mangle)]
pub extern "C" fn tuppence_sigmoid(x: f32) -> f32
    ensures { result ≡ sigmoid_approx x }
{
    export::of_numbers::tuppence_sigmoid(x)
}

#[unsafe(no_mangle)]
pub extern "C" fn tuppence_relu(x: f32) -> f32
    ensures { result ≡ rectified x }
{
    export::of_numbers::tuppence_relu(x)
}

#[unsafe(no_mangle)]
pub extern "C" fn tuppence_sqrt(x: f32) -> f32
    ensures { result ≡ root binary32 x }
{
    export::of_numbers::tuppence_sqrt(x)
}

#[unsafe(no_mangle)]
pub extern "C" fn tuppence_max(a: f32, b: f32) -> f32
    ensures { result ≡ larger a b }
{
    export::of_numbers::tuppence_max(a, b)
}

#[unsafe(no_mangle)]
pub extern "C" fn tuppence_min(a: f32, b: f32) -> f32
    ensures { result ≡ smaller a b }
{
    export::of_numbers::tuppence_min(a, b)
}

#[unsafe(no_mangle)]
pub extern "C" fn tuppence_clamp(x: f32, low: f32, high: f32) -> f32
    ensures { result ≡ clamped x low high }
{
    export::of_numbers::tuppence_clamp(x, low, high)
}

#[unsafe(no_mangle)]
pub extern "C" fn tuppence_narrow(x: f64) -> f32
    ensures { result ≡ narrowed x }
{
    export::of_numbers::tuppence_narrow(x)
}

#[unsafe(no_mangle)]
pub extern "C" fn tuppence_filter(
    output: &mut [f32],
    memory: &mut [f32],
    coefficients: &[f32],
    input: &[f32],
) -> u32
    ensures { Leaf
        (BiquadFits
        (length output.old) (length memory.old) (length coefficients.now)
        (length input.now))
        (result leaving output.new leaving memory.new)
        (0 leaving outputs (biquad_of coefficients.now) (memory_of memory.old) input.now
        leaving memory_list (memory_after (biquad_of coefficients.now) (memory_of memory.old)
        input.now))
        (5 leaving output.old leaving memory.old) }
{
    export::of_numbers::tuppence_filter(output, memory, coefficients, input)
}
