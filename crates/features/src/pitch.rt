// The steps of `pitch_filter`.
ghost use Rattle.std.specs.Prelude.{◌≡◌};
ghost use Rattle.features.specs.Pitch.{strength, ratio, band_pitch_gain, pitch_gains, renormalised, pitch_added};
ghost use Rattle.features.specs.Pitch.{restored, pitch_filtered};

// How much of a band is pitch, by its correlation and its gain.
#[tactic(auto, unfolding(crate::specs::Pitch::strength))]
fn strength_of(exp: f32, gain: f32) -> f32
    ensures { result ≡ strength gain exp }
{
    if exp > gain {
        return 1.0;
    }
    let exp_sq = exp * exp;
    let g_sq = gain * gain;
    exp_sq * (1.0 - g_sq) / (0.001 + g_sq * (1.0 - exp_sq))
}

// The root of the ratio of two energies.
#[tactic(auto, unfolding(crate::specs::Pitch::ratio))]
fn energy_ratio(ex: f32, e: f32) -> f32
    ensures { result ≡ ratio ex e }
{
    numbers::sqrt(ex / (1e-8 + e))
}

// How much of the lagged signal is added in a band.
#[tactic(auto, unfolding(crate::specs::Pitch::band_pitch_gain))]
fn gain_of(exp: f32, gain: f32, ex: f32, ep: f32) -> f32
    ensures { result ≡ band_pitch_gain gain exp ex ep }
{
    numbers::sqrt(numbers::clamp(strength_of(exp, gain), 0.0, 1.0)) * energy_ratio(ex, ep)
}

// The same for all bands.
fn gains_of(r: &mut [f32; 22], exp: &[f32; 22], gains: &[f32; 22], ex: &[f32; 22], ep: &[f32; 22])
    ensures { r.new ≡ pitch_gains gains.now exp.now ex.now ep.now }
{
    for (i, gain) in r.iter_mut().enumerate() {
        *gain = gain_of(exp[i], gains[i], ex[i], ep[i]);
    }
}

// Turns each band's new energy into the factor that restores its old one.
fn renormalise(e: &mut [f32; 22], ex: &[f32; 22])
    ensures { e.new ≡ renormalised ex.now e.old }
{
    for (i, energy) in e.iter_mut().enumerate() {
        *energy = energy_ratio(ex[i], *energy);
    }
}

// Adds the lagged spectrum to the spectrum, each bin times its factor.
fn add_pitch(x: &mut [f32; 961], p: &[f32; 961], rf: &[f32; 481])
    ensures { x.new ≡ pitch_added x.old p.now rf.now }
{
    // Stays: a loop like that of `scale_bins`, where `iter_mut().enumerate()` was slower.
    for n in 0..961 {
        x[n] = x[n] + p[n] * rf[(n + 1) / 2];
    }
}

// Brings the energies of the bands of x back to ex. `r` has a place for each band, and `rf` for each bin.
#[tactic(auto, using(rules::proofs::Refusals::left), unfolding(crate::specs::Pitch::restored))]
fn restore(x: &mut [f32; 961], ex: &[f32; 22], r: &mut [f32; 22], rf: &mut [f32; 481])
    ensures { x.new ≡ restored x.old ex.now }
{
    let before = &*x;
    bands::compute_band_corr(r, before, before).unwrap();
    renormalise(r, ex);
    bands::interp_band_gain(rf, r).unwrap();
    crate::scale_bins(x, rf);
}

// `pitch_filter` for lengths that fit.
#[tactic(auto, using(rules::proofs::Refusals::left), unfolding(crate::specs::Pitch::pitch_filtered))]
pub(crate) fn filter(
    x: &mut [f32; 961],
    p: &[f32; 961],
    gains: &[f32; 22],
    exp: &[f32; 22],
    ex: &[f32; 22],
    ep: &[f32; 22],
)
    ensures { x.new ≡ pitch_filtered x.old p.now gains.now exp.now ex.now ep.now }
{
    let mut r = [0.0f32; 22];
    let mut rf = [0.0f32; 481];
    gains_of(&mut r, exp, gains, ex, ep);
    bands::interp_band_gain(&mut rf, &r).unwrap();
    add_pitch(x, p, &rf);
    restore(x, ex, &mut r, &mut rf);
}
