// transforms: the two transforms as plain sums. Refusal 5: a slice has a wrong length.
ghost use Rattle.std.specs.Prelude.{length};
ghost use Rattle.rules.specs.Leaf.{Leaf, ◌leaving◌};
ghost use Rattle.transforms.specs.Transform.{forward_of, ForwardFits, inverse_of, InverseFits};

use rules::told;

// From samples to a spectrum: `samples` has 960 numbers, `spectrum` gets 961: bin 0, then the real and imaginary
// parts of bins 1 to 480.
#[unsafe(no_mangle)]
pub extern "C" fn tuppence_forward(spectrum: &mut [f32], samples: &[f32]) -> u32
    ensures { Leaf (ForwardFits (length spectrum.old) (length samples.now))
        (result leaving spectrum.new)
        (0 leaving forward_of samples.now)
        (5 leaving spectrum.old) }
{
    told(transforms::forward(spectrum, samples))
}

// From a spectrum to samples, not normalised: `spectrum` has 961 numbers, `samples` gets 960.
#[unsafe(no_mangle)]
pub extern "C" fn tuppence_inverse(samples: &mut [f32], spectrum: &[f32]) -> u32
    ensures { Leaf (InverseFits (length samples.old) (length spectrum.now))
        (result leaving samples.new)
        (0 leaving inverse_of spectrum.now)
        (5 leaving samples.old) }
{
    told(transforms::inverse(samples, spectrum))
}
