// The functions of crates/export/src/of_fft.rt for C: the same names and contracts.
// tools/make_export_c.sh makes this file.
ghost use Rattle.std.specs.Prelude.{length};
ghost use Rattle.rules.specs.Leaf.{Leaf, ◌leaving◌};
ghost use Rattle.transforms.specs.Transform.{ForwardFits, InverseFits};
ghost use Rattle.fft.specs.Single.{fast_forward, fast_inverse};

#[unsafe(no_mangle)]
pub extern "C" fn tuppence_fft_forward(spectrum: &mut [f32], samples: &[f32]) -> u32
    ensures { Leaf (ForwardFits (length spectrum.old) (length samples.now))
        (result leaving spectrum.new)
        (0 leaving fast_forward samples.now)
        (5 leaving spectrum.old) }
{
    export::of_fft::tuppence_fft_forward(spectrum, samples)
}

#[unsafe(no_mangle)]
pub extern "C" fn tuppence_fft_inverse(samples: &mut [f32], spectrum: &[f32]) -> u32
    ensures { Leaf (InverseFits (length samples.old) (length spectrum.now))
        (result leaving samples.new)
        (0 leaving fast_inverse spectrum.now)
        (5 leaving samples.old) }
{
    export::of_fft::tuppence_fft_inverse(samples, spectrum)
}
