// bands: correlation and gains in 22 bands, the cosine transform, and the window. Refusal 5: a slice has a wrong
// length.
ghost use Rattle.std.specs.Prelude.{◌≡◌, length};
ghost use Rattle.rules.specs.Leaf.{Leaf, ◌leaving◌};
ghost use Rattle.bands.specs.Bands.{band_corr, BandFits, band_gain, GainFits};
ghost use Rattle.bands.specs.Dct.{dct_of, DctFits};
ghost use Rattle.bands.specs.Windowed.{windowed, WindowFits};

use rules::told;

// The correlation of two spectra in 22 bands. `out` has 22 numbers, `x` and `p` have 961 each.
#[unsafe(no_mangle)]
pub extern "C" fn tuppence_band_corr(out: &mut [f32], x: &[f32], p: &[f32]) -> u32
    ensures { Leaf (BandFits (length out.old) (length x.now) (length p.now))
        (result leaving out.new)
        (0 leaving band_corr x.now p.now)
        (5 leaving out.old) }
{
    told(bands::compute_band_corr(out, x, p))
}

// Spreads the gains of 22 bands over all frequency bins. `out` has 481 numbers, `bands` has 22.
#[unsafe(no_mangle)]
pub extern "C" fn tuppence_band_gain(out: &mut [f32], bands: &[f32]) -> u32
    ensures { Leaf (GainFits (length out.old) (length bands.now))
        (result leaving out.new)
        (0 leaving band_gain bands.now)
        (5 leaving out.old) }
{
    told(bands::interp_band_gain(out, bands))
}

// The cosine transform of 22 numbers. `out` and `x` have 22 each.
#[unsafe(no_mangle)]
pub extern "C" fn tuppence_dct(out: &mut [f32], x: &[f32]) -> u32
    ensures { Leaf (DctFits (length out.old) (length x.now))
        (result leaving out.new)
        (0 leaving dct_of x.now)
        (5 leaving out.old) }
{
    told(bands::dct(out, x))
}

// Multiplies samples by the window. `out` and `x` have 960 numbers each.
#[unsafe(no_mangle)]
pub extern "C" fn tuppence_window(out: &mut [f32], x: &[f32]) -> u32
    ensures { Leaf (WindowFits (length out.old) (length x.now))
        (result leaving out.new)
        (0 leaving windowed x.now)
        (5 leaving out.old) }
{
    told(bands::apply_window(out, x))
}

// The window in place: `xs` has 960 numbers.
#[unsafe(no_mangle)]
pub extern "C" fn tuppence_window_in_place(xs: &mut [f32]) -> u32
    ensures { Leaf (length xs.old ≡ 960)
        (result leaving xs.new)
        (0 leaving windowed xs.old)
        (5 leaving xs.old) }
{
    told(bands::apply_window_in_place(xs))
}
