// The functions of crates/export/src/of_bands.rt for C: the same names and contracts.
// tools/make_export_c.sh makes this file.
ghost use Rattle.std.specs.Prelude.{◌≡◌, length};
ghost use Rattle.rules.specs.Leaf.{Leaf, ◌leaving◌};
ghost use Rattle.bands.specs.Bands.{band_corr, BandFits, band_gain, GainFits};
ghost use Rattle.bands.specs.Dct.{dct_of, DctFits};
ghost use Rattle.bands.specs.Windowed.{windowed, WindowFits};

#[unsafe(no_mangle)]
pub extern "C" fn tuppence_band_corr(out: &mut [f32], x: &[f32], p: &[f32]) -> u32
    ensures { Leaf (BandFits (length out.old) (length x.now) (length p.now))
        (result leaving out.new)
        (0 leaving band_corr x.now p.now)
        (5 leaving out.old) }
{
    export::of_bands::tuppence_band_corr(out, x, p)
}

#[unsafe(no_mangle)]
pub extern "C" fn tuppence_band_gain(out: &mut [f32], bands: &[f32]) -> u32
    ensures { Leaf (GainFits (length out.old) (length bands.now))
        (result leaving out.new)
        (0 leaving band_gain bands.now)
        (5 leaving out.old) }
{
    export::of_bands::tuppence_band_gain(out, bands)
}

#[unsafe(no_mangle)]
pub extern "C" fn tuppence_dct(out: &mut [f32], x: &[f32]) -> u32
    ensures { Leaf (DctFits (length out.old) (length x.now))
        (result leaving out.new)
        (0 leaving dct_of x.now)
        (5 leaving out.old) }
{
    export::of_bands::tuppence_dct(out, x)
}

#[unsafe(no_mangle)]
pub extern "C" fn tuppence_window(out: &mut [f32], x: &[f32]) -> u32
    ensures { Leaf (WindowFits (length out.old) (length x.now))
        (result leaving out.new)
        (0 leaving windowed x.now)
        (5 leaving out.old) }
{
    export::of_bands::tuppence_window(out, x)
}

#[unsafe(no_mangle)]
pub extern "C" fn tuppence_window_in_place(xs: &mut [f32]) -> u32
    ensures { Leaf (length xs.old ≡ 960)
        (result leaving xs.new)
        (0 leaving windowed xs.old)
        (5 leaving xs.old) }
{
    export::of_bands::tuppence_window_in_place(xs)
}
