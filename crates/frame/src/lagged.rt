// Call 2: what `transform_input` and `compute_frame_features` of features.rs make of the first spectrum.
ghost use Rattle.std.specs.Prelude.{◌≡◌, [], ◌∷◌, ◌≤◌, pos, length};
ghost use Rattle.std.specs.Float.{binary32};
ghost use Rattle.std.specs.Float.Ieee.{of_int};
ghost use Rattle.rules.specs.Place.{put};
ghost use Rattle.frame.specs.Share.{kept_x, kept_ex, kept_lag};
ghost use Rattle.frame.specs.Heard.{scaled, energies};
ghost use Rattle.frame.specs.Frame.{plus_hundredth, put_kept};

use crate::{Lag, PART};

// `out` becomes the spectrum, each number multiplied by `wnorm`.
fn scale(out: &mut [f32], spectrum: &[f32; 961])
    requires { length out.old ≡ 961 }
    ensures { out.new ≡ scaled spectrum.now }
{
    let norm = bands::wnorm();
    for (i, bin) in out.iter_mut().enumerate() {
        *bin = spectrum[i] * norm;
    }
}

// p becomes the scaled spectrum, and ep its band energies.
#[tactic(auto, using(rules::proofs::Refusals::left), unfolding(crate::specs::Heard::energies))]
pub(crate) fn transform(p: &mut [f32], ep: &mut [f32; 22], spectrum: &[f32; 961])
    requires { length p.old ≡ 961 }
    ensures p_after { p.new ≡ scaled spectrum.now }
    ensures ep_after { ep.new ≡ energies spectrum.now }
{
    scale(p, spectrum);
    bands::compute_band_corr(ep, p, p).unwrap();
}

// Adds 0.01 to each energy. The logarithms are taken of these sums.
fn lift(ex: &mut [f32; 22])
    ensures { ex.new ≡ plus_hundredth ex.old }
{
    for energy in ex.iter_mut() {
        *energy = 0.01 + *energy;
    }
}

// Stores the scaled spectrum in the share, and its band energies in ex.
#[tactic(auto, unfolding(rules::specs::Place::put))]
fn analyse(share: &mut [f32; PART], spectrum: &[f32; 961], ex: &mut [f32; 22])
    ensures share_after { share.new ≡ put kept_x share.old (scaled spectrum.now) }
    ensures ex_after { ex.new ≡ energies spectrum.now }
{
    transform(&mut share[2208..3169], ex, spectrum);
}

// Stores the band energies and the lag in the share.
fn keep(share: &mut [f32; PART], ex: &[f32; 22], lag: Lag)
    requires { lag.0 ≤ 768 }
    ensures { share.new
        ≡ put kept_lag (put kept_ex share.old ex.now) (of_int binary32 (pos lag.0) ∷ []) }
{
    rules::copy(&mut share[3169..3191], ex).unwrap();
    share[3191] = lag.0 as f32;
}

// What call 2 does after its window is written.
#[tactic(auto, unfolding(crate::specs::Frame::put_kept))]
pub(crate) fn note(share: &mut [f32; PART], spectrum: &[f32; 961], lag: Lag, sums: &mut [f32; 22])
    requires { lag.0 ≤ 768 }
    ensures share_after { share.new ≡ put_kept share.old spectrum.now lag.0 }
    ensures sums_after { sums.new ≡ plus_hundredth (energies spectrum.now) }
{
    analyse(share, spectrum, sums);
    keep(share, sums, lag);
    lift(sums);
}
