// The arithmetic of a heard frame, from features.rs and denoise.rs, on plain slices. Each public function refuses, and
// changes nothing, exactly if a length does not fit.
#![tactic(auto)]

ghost use Rattle.std.specs.Prelude.{◌≡◌, Ok, Err, length};
ghost use Rattle.rules.specs.Leaf.{Leaf, ◌leaving◌};
ghost use Rattle.rules.specs.declared.refusal.Refusal.TheVariants.{WrongLength};
ghost use Rattle.features.specs.Silence.{energy, sound_of};
ghost use Rattle.features.specs.Features.{normalised_corr, with_cepstrum, features_of, FeaturesFit};
ghost use Rattle.features.specs.Gains.{gained, GainsFit};
ghost use Rattle.features.specs.Pitch.{applied, ApplyFits, pitch_filtered, PitchFilterFits};

use rules::Refusal;

mod cepstra;
mod heard;
mod pitch;

// None, a silent frame, if the sum of its band energies is below 0.04. A NaN is not.
#[tactic(auto, unfolding(crate::specs::Silence::sound_of))]
fn sound_of(e: f32) -> Option<f32>
    ensures { result ≡ sound_of e }
{
    if e < 0.04 {
        return None;
    }
    Some(e)
}

// The sum of the band energies.
// Stays: `sum()` begins with -0.0, and the definition `energy` with +0.0, which may not change.
#[tactic(auto, using(rules::proofs::Loops::turns), unfolding(crate::specs::Silence::energy))]
fn energy(ex: &[f32; 22]) -> f32
    ensures { result ≡ energy ex.now }
{
    let mut e = 0.0f32;
    for x in ex.iter() {
        e = e + *x;
    }
    e
}

// Whether a frame is heard, by its 22 band energies: their sum, or None if it is silent.
pub fn listen(ex: &[f32]) -> Result<Option<f32>, Refusal>
    ensures { Leaf (length ex.now ≡ 22) result (Ok (sound_of (energy ex.now))) (Err WrongLength) }
{
    let Some(ex) = ex.as_array() else {
        return Err(Refusal::WrongLength);
    };
    Ok(sound_of(energy(ex)))
}

// The features of a heard frame, and its normalised correlations. Its cepstrum becomes row `index` of the memory, which
// has 8 rows of 22. `logs` are the logarithms of 0.01 + ex, and `lag` is how far p is behind x.
// Stays: a public function keeps its parameters, here and in pitch_filter. The private functions hand them on, no two
// of them the same ones, so a struct is no plainer.
pub fn compute_features(
    features: &mut [f32],
    exp: &mut [f32],
    mem: &mut [f32],
    index: usize,
    x: &[f32],
    p: &[f32],
    ex: &[f32],
    ep: &[f32],
    lag: f32,
    logs: &[f32],
) -> Result<(), Refusal>
    ensures { Leaf (FeaturesFit (length features.old) (length exp.old) (length mem.old) index
        (length x.now) (length p.now) (length ex.now) (length ep.now) (length logs.now))
        (result leaving features.new leaving exp.new leaving mem.new)
        (Ok tt leaving features_of (normalised_corr x.now p.now ex.now ep.now) lag logs.now mem.old index
        leaving normalised_corr x.now p.now ex.now ep.now
        leaving with_cepstrum logs.now mem.old index)
        (Err WrongLength leaving features.old leaving exp.old leaving mem.old) }
{
    if features.len() != 42 || exp.len() != 22 || mem.len() != 176 || index > 7 {
        return Err(Refusal::WrongLength);
    }
    let (Some(x), Some(p), Some(ex), Some(ep), Some(logs)) = (
        x.as_array(),
        p.as_array(),
        ex.as_array(),
        ep.as_array(),
        logs.as_array(),
    ) else {
        return Err(Refusal::WrongLength);
    };
    let features = features.as_mut_array().unwrap();
    let exp = exp.as_mut_array().unwrap();
    let mem = mem.as_mut_array().unwrap();
    heard::correlate(exp, x, p, ex, ep);
    heard::fill_features(features, mem, cepstra::Row { index }, exp, lag, logs);
    Ok(())
}

fn hold_each(g: &mut [f32; 22], last: &mut [f32; 22])
    ensures of_g { g.new ≡ gained g.old last.old }
    ensures of_last { last.new ≡ gained g.old last.old }
{
    for (i, gain) in g.iter_mut().enumerate() {
        let held = numbers::max(*gain, 0.6 * last[i]);
        *gain = held;
        last[i] = held;
    }
}

// Raises each gain to at least 0.6 times the remembered one, and remembers it.
pub fn hold_gains(g: &mut [f32], last: &mut [f32]) -> Result<(), Refusal>
    ensures { Leaf (GainsFit (length g.old) (length last.old))
        (result leaving g.new leaving last.new)
        (Ok tt leaving gained g.old last.old leaving gained g.old last.old)
        (Err WrongLength leaving g.old leaving last.old) }
{
    if g.len() != 22 || last.len() != 22 {
        return Err(Refusal::WrongLength);
    }
    hold_each(g.as_mut_array().unwrap(), last.as_mut_array().unwrap());
    Ok(())
}

fn scale_bins(x: &mut [f32; 961], gains: &[f32; 481])
    ensures { x.new ≡ applied x.old gains.now }
{
    // Stays: `iter_mut().enumerate()` was tried here, and took up to twice as long.
    for n in 0..961 {
        x[n] = x[n] * gains[(n + 1) / 2];
    }
}

// Multiplies each bin of a spectrum by its gain.
pub fn apply_gains(x: &mut [f32], gains: &[f32]) -> Result<(), Refusal>
    ensures { Leaf (ApplyFits (length x.old) (length gains.now))
        (result leaving x.new)
        (Ok tt leaving applied x.old gains.now)
        (Err WrongLength leaving x.old) }
{
    let (Some(x), Some(gains)) = (x.as_mut_array(), gains.as_array()) else {
        return Err(Refusal::WrongLength);
    };
    scale_bins(x, gains);
    Ok(())
}

// Adds the lagged spectrum to the spectrum in proportion to the pitch in each band, and restores the energies of the
// bands. This weakens what has little pitch.
pub fn pitch_filter(
    x: &mut [f32],
    p: &[f32],
    gains: &[f32],
    exp: &[f32],
    ex: &[f32],
    ep: &[f32],
) -> Result<(), Refusal>
    ensures { Leaf (PitchFilterFits (length x.old) (length p.now) (length gains.now) (length exp.now)
        (length ex.now) (length ep.now))
        (result leaving x.new)
        (Ok tt leaving pitch_filtered x.old p.now gains.now exp.now ex.now ep.now)
        (Err WrongLength leaving x.old) }
{
    let (Some(x), Some(p), Some(gains), Some(exp), Some(ex), Some(ep)) = (
        x.as_mut_array(),
        p.as_array(),
        gains.as_array(),
        exp.as_array(),
        ex.as_array(),
        ep.as_array(),
    ) else {
        return Err(Refusal::WrongLength);
    };
    pitch::filter(x, p, gains, exp, ex, ep);
    Ok(())
}
