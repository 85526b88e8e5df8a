// The functions of crates/export/src/of_transforms.rt for C: the same names and contracts.
// tools/make_export_c.sh makes this file.
ghost use Rattle.std.specs.Prelude.{length};
ghost use Rattle.rules.specs.Leaf.{Leaf, ◌leaving◌};
ghost use Rattle.transforms.specs.Transform.{forward_of, ForwardFits, inverse_of, InverseFits};

#[unsafe(no_mangle)]
pub extern "C" fn tuppence_forward(spectrum: &mut [f32], samples: &[f32]) -> u32
    ensures { Leaf (ForwardFits (length spectrum.old) (length samples.now))
        (result leaving spectrum.new)
        (0 leaving forward_of samples.now)
        (5 leaving spectrum.old) }
{
    export::of_transforms::tuppence_forward(spectrum, samples)
}

#[unsafe(no_mangle)]
pub extern "C" fn tuppence_inverse(samples: &mut [f32], spectrum: &[f32]) -> u32
    ensures { Leaf (InverseFits (length samples.old) (length spectrum.now))
        (result leaving samples.new)
        (0 leaving inverse_of spectrum.now)
        (5 leaving samples.old) }
{
    export::of_transforms::tuppence_inverse(samples, spectrum)
}
