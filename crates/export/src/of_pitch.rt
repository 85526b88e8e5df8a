// pitch: the arithmetic of the pitch search. The slice that a function writes comes first. Refusal 5: a slice has a
// wrong length.
ghost use Rattle.std.specs.Prelude.{◌≡◌, [], ◌∷◌, ◌<◌, length};
ghost use Rattle.rules.specs.Leaf.{Leaf, ◌leaving◌};
ghost use Rattle.pitch_search.specs.Inner.{inner_prod};
ghost use Rattle.pitch.specs.Lpc.{lpc_of};
ghost use Rattle.pitch.specs.Xcorr.{pitch_xcorr, XcorrFits};
ghost use Rattle.pitch_search.specs.Best.{best};
ghost use Rattle.pitch.specs.Fir.{fir5};
ghost use Rattle.pitch.specs.Autocorr.{celt_autocorr, AutocorrFits};
ghost use Rattle.pitch.specs.Downsample.{downsampled, DownsampleFits};
ghost use Rattle.export.specs.OfPitch.{SumFits, PitchesFit};

use rules::{Refusal, told};

// The sum of n products. `sum` has one place, for it. `xs` and `ys` have n numbers or more.
#[unsafe(no_mangle)]
pub extern "C" fn tuppence_inner_prod(sum: &mut [f32], xs: &[f32], ys: &[f32], n: usize) -> u32
    ensures { Leaf (SumFits (length sum.old) (length xs.now) (length ys.now) n)
        (result leaving sum.new)
        (0 leaving inner_prod xs.now ys.now n ∷ [])
        (5 leaving sum.old) }
{
    if sum.len() != 1 {
        return Refusal::WrongLength.number();
    }
    match pitch_search::inner_prod(xs, ys, n) {
        Ok(product) => {
            sum.copy_from_slice(&[product]);
            0
        }
        Err(refusal) => refusal.number(),
    }
}

// Linear prediction. `ac` has at least one number more than `lpc`.
#[unsafe(no_mangle)]
pub extern "C" fn tuppence_lpc(lpc: &mut [f32], ac: &[f32]) -> u32
    ensures { Leaf (length lpc.old < length ac.now)
        (result leaving lpc.new)
        (0 leaving lpc_of (length lpc.old) ac.now)
        (5 leaving lpc.old) }
{
    told(pitch::lpc(lpc, ac))
}

// `xcorr` gets a correlation of `xs` and `ys` in each of its places. If it has any, `ys` is at least as long as the
// two others together less 1, and as both lengths rounded down to a multiple of 4.
#[unsafe(no_mangle)]
pub extern "C" fn tuppence_pitch_xcorr(xcorr: &mut [f32], xs: &[f32], ys: &[f32]) -> u32
    ensures { Leaf (XcorrFits (length xs.now) (length ys.now)
        (length xcorr.old))
        (result leaving xcorr.new)
        (0 leaving pitch_xcorr xs.now ys.now (length xcorr.old))
        (5 leaving xcorr.old) }
{
    told(pitch::pitch_xcorr(xs, ys, xcorr))
}

// The two best lags. `pitches` has two places, for them. `ys` has at least len numbers more than `xcorr`.
#[unsafe(no_mangle)]
pub extern "C" fn tuppence_find_best_pitch(
    pitches: &mut [u64],
    xcorr: &[f32],
    ys: &[f32],
    len: usize,
) -> u32
    ensures { Leaf (PitchesFit (length pitches.old) (length xcorr.now)
        (length ys.now) len)
        (result leaving pitches.new)
        (0 leaving (best xcorr.now ys.now len).best_pitch
        ∷ (best xcorr.now ys.now len).second_best_pitch ∷ [])
        (5 leaving pitches.old) }
{
    if pitches.len() != 2 {
        return Refusal::WrongLength.number();
    }
    match pitch_search::find_best_pitch(xcorr, ys, len) {
        Ok(found) => {
            pitches.copy_from_slice(&[found.first as u64, found.second as u64]);
            0
        }
        Err(refusal) => refusal.number(),
    }
}

// A filter of five taps, in place. `xs` has any length, `num` has five numbers.
#[unsafe(no_mangle)]
pub extern "C" fn tuppence_fir5(xs: &mut [f32], num: &[f32]) -> u32
    ensures { Leaf (length num.now ≡ 5)
        (result leaving xs.new)
        (0 leaving fir5 xs.old num.now)
        (5 leaving xs.old) }
{
    told(pitch::fir5_in_place(xs, num))
}

// Autocorrelation. `ac` has five places, `x` five numbers or more.
#[unsafe(no_mangle)]
pub extern "C" fn tuppence_autocorr(ac: &mut [f32], x: &[f32]) -> u32
    ensures { Leaf (AutocorrFits (length x.now) (length ac.old))
        (result leaving ac.new)
        (0 leaving celt_autocorr x.now)
        (5 leaving ac.old) }
{
    told(pitch::celt_autocorr(x, ac))
}

// Halves the sampling rate. `x` has 1,728 numbers, `x_lp` gets 864.
#[unsafe(no_mangle)]
pub extern "C" fn tuppence_downsample(x_lp: &mut [f32], x: &[f32]) -> u32
    ensures { Leaf (DownsampleFits (length x.now) (length x_lp.old))
        (result leaving x_lp.new)
        (0 leaving downsampled x.now)
        (5 leaving x_lp.old) }
{
    told(pitch::pitch_downsample(x, x_lp))
}
