// The functions of crates/export/src/of_pitch.rt for C: the same names and contracts.
// tools/make_export_c.sh makes this file.
ghost use Rattle.std.specs.Prelude.{◌≡◌, [], ◌∷◌, ◌<◌, length};
ghost use Rattle.rules.specs.Leaf.{Leaf, ◌leaving◌};
ghost use Rattle.pitch_search.specs.Inner.{inner_prod};
ghost use Rattle.pitch.specs.Lpc.{lpc_of};
ghost use Rattle.pitch.specs.Xcorr.{pitch_xcorr, XcorrFits};
ghost use Rattle.pitch_search.specs.Best.{best};
ghost use Rattle.pitch.specs.Fir.{fir5};
ghost use Rattle.pitch.specs.Autocorr.{celt_autocorr, AutocorrFits};
ghost use Rattle.pitch.specs.Downsample.{downsampled, DownsampleFits};
ghost use Rattle.export.specs.OfPitch.{SumFits, PitchesFit};

#[unsafe(no_mangle)]
pub extern "C" fn tuppence_inner_prod(sum: &mut [f32], xs: &[f32], ys: &[f32], n: usize) -> u32
    ensures { Leaf (SumFits (length sum.old) (length xs.now) (length ys.now) n)
        (result leaving sum.new)
        (0 leaving inner_prod xs.now ys.now n ∷ [])
        (5 leaving sum.old) }
{
    export::of_pitch::tuppence_inner_prod(sum, xs, ys, n)
}

#[unsafe(no_mangle)]
pub extern "C" fn tuppence_lpc(lpc: &mut [f32], ac: &[f32]) -> u32
    ensures { Leaf (length lpc.old < length ac.now)
        (result leaving lpc.new)
        (0 leaving lpc_of (length lpc.old) ac.now)
        (5 leaving lpc.old) }
{
    export::of_pitch::tuppence_lpc(lpc, ac)
}

#[unsafe(no_mangle)]
pub extern "C" fn tuppence_pitch_xcorr(xcorr: &mut [f32], xs: &[f32], ys: &[f32]) -> u32
    ensures { Leaf (XcorrFits (length xs.now) (length ys.now)
        (length xcorr.old))
        (result leaving xcorr.new)
        (0 leaving pitch_xcorr xs.now ys.now (length xcorr.old))
        (5 leaving xcorr.old) }
{
    export::of_pitch::tuppence_pitch_xcorr(xcorr, xs, ys)
}

#[unsafe(no_mangle)]
pub extern "C" fn tuppence_find_best_pitch(
    pitches: &mut [u64],
    xcorr: &[f32],
    ys: &[f32],
    len: usize,
) -> u32
    ensures { Leaf (PitchesFit (length pitches.old) (length xcorr.now)
        (length ys.now) len)
        (result leaving pitches.new)
        (0 leaving (best xcorr.now ys.now len).best_pitch
        ∷ (best xcorr.now ys.now len).second_best_pitch ∷ [])
        (5 leaving pitches.old) }
{
    export::of_pitch::tuppence_find_best_pitch(pitches, xcorr, ys, len)
}

#[unsafe(no_mangle)]
pub extern "C" fn tuppence_fir5(xs: &mut [f32], num: &[f32]) -> u32
    ensures { Leaf (length num.now ≡ 5)
        (result leaving xs.new)
        (0 leaving fir5 xs.old num.now)
        (5 leaving xs.old) }
{
    export::of_pitch::tuppence_fir5(xs, num)
}

#[unsafe(no_mangle)]
pub extern "C" fn tuppence_autocorr(ac: &mut [f32], x: &[f32]) -> u32
    ensures { Leaf (AutocorrFits (length x.now) (length ac.old))
        (result leaving ac.new)
        (0 leaving celt_autocorr x.now)
        (5 leaving ac.old) }
{
    export::of_pitch::tuppence_autocorr(ac, x)
}

#[unsafe(no_mangle)]
pub extern "C" fn tuppence_downsample(x_lp: &mut [f32], x: &[f32]) -> u32
    ensures { Leaf (DownsampleFits (length x.now) (length x_lp.old))
        (result leaving x_lp.new)
        (0 leaving downsampled x.now)
        (5 leaving x_lp.old) }
{
    export::of_pitch::tuppence_downsample(x_lp, x)
}
