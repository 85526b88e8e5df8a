// Call 3: `compute_frame_features` of features.rs and `process_frame` of denoise.rs, from the second spectrum on.
ghost use Rattle.std.specs.Prelude.{◌≡◌, [], ◌∷◌, ◌≤◌, length};
ghost use Rattle.rules.specs.F32.{at};
ghost use Rattle.rules.specs.Place.{get, put};
ghost use Rattle.bands.specs.Bands.{band_gain};
ghost use Rattle.model.specs.Model.{read_of};
ghost use Rattle.features.specs.Pitch.{pitch_filtered, applied};
ghost use Rattle.frame.specs.Share.{kept_x, kept_ex, lastg};
ghost use Rattle.frame.specs.Heard.{energies, featured, rnn_of, held_gains, spoken_from, spoken};
ghost use Rattle.frame.specs.Effect.{Worked};
ghost use Rattle.frame.specs.Frame.{done3, counted, checked};
ghost use Rattle.frame.specs.Private.{IsModel, Reads, featured_as, rnn_as, spoken_as};
ghost use Rattle.frame.specs.Answer.{reply_told, test_as_reply};

use crate::{Cause, Hearing, PART, Told};
use rules::Refusal;

// What a heard frame is lent besides its share and its spectrum.
#[derive(Clone, Copy)]
struct Lent<'a> {
    // The spectrum of the lagged window, scaled.
    p: &'a [f32; 961],
    // The band energies that the share keeps.
    ex: &'a [f32; 22],
    // The band energies of p.
    ep: &'a [f32; 22],
    // The logarithms of 0.01 + ex.
    logs: &'a [f32; 22],
}

// The model's test: refused with 7 if it does not read, and with 8 if it has other GRU sizes.
#[tactic(auto, using(rules::proofs::Tests::tests), unfolding(crate::specs::Frame::checked))]
pub fn check(model: &[u8], hearing: Hearing) -> Result<(), Cause>
    ensures { test_as_reply result ≡ checked (counted hearing) (read_of model.now) }
{
    let m = model::read(model)?;
    if m.vad_gru.neurons != hearing.vad
        || m.noise_gru.neurons != hearing.noise
        || m.denoise_gru.neurons != hearing.denoise
    {
        return Err(Cause::Plain(Refusal::OtherCounts));
    }
    Ok(())
}

// Computes the features and the correlations, and stores the new cepstrum. x and ex are those that the share
// keeps.
fn compute_features(
    share: &mut [f32; PART],
    features: &mut [f32; 42],
    exp: &mut [f32; 22],
    index: usize,
    x: &[f32; 961],
    lent: Lent,
)
    requires inside { index ≤ 7 }
    requires as_kept { (x.now ≡ get kept_x share.old) × (lent.ex.now ≡ get kept_ex share.old) }
    ensures { featured_as share.new features.new exp.new
        ≡ featured share.old index lent.entry.p.now lent.entry.ep.now lent.entry.logs.now }
{
    let Lent { p, ex, ep, logs } = lent;
    let lag = share[3191];
    features::compute_features(
        features,
        exp,
        &mut share[3216..3392],
        index,
        x,
        p,
        ex,
        ep,
        lag,
        logs,
    )
    .unwrap();
}

// Runs the network on the states in the share. Gives the gains and returns the voice.
fn compute_rnn(
    share: &mut [f32; PART],
    gains: &mut [f32; 22],
    model: &[u8],
    features: &[f32; 42],
) -> f32
    requires reads { IsModel (read_of model.now) }
    ensures { Reads model.now
        (λ m. rnn_as share.new gains.new result
        ≡ rnn_of share.old features.now model.now m) }
{
    let mut voice = [0.0f32; 1];
    network::compute_on(gains, &mut voice, &mut share[3392..3776], model, features).unwrap();
    voice[0]
}

#[tactic(auto, using(rules::proofs::Refusals::left))]
fn apply(out: &mut [f32; 961], gains: &[f32; 22])
    ensures { out.new ≡ applied out.old (band_gain gains.now) }
{
    let mut gf = [0.0f32; 481];
    bands::interp_band_gain(&mut gf, gains).unwrap();
    features::apply_gains(out, &gf).unwrap();
}

// Raises the gains to 0.6 of the last ones, remembers them, and applies them.
fn apply_gain(share: &mut [f32; PART], out: &mut [f32; 961], gains: &mut [f32; 22])
    ensures share_after { share.new
        ≡ put lastg share.old (held_gains share.old gains.old) }
    ensures out_after { out.new
        ≡ applied out.old (band_gain (held_gains share.old gains.old)) }
{
    features::hold_gains(gains, &mut share[3194..3216]).unwrap();
    apply(out, gains);
}

// The pitch filter, with the network's own gains; then the gains are raised, remembered and applied.
#[tactic(auto, using(rules::proofs::Refusals::left))]
fn filter_and_apply_gain(
    share: &mut [f32; PART],
    out: &mut [f32; 961],
    gains: &mut [f32; 22],
    exp: &[f32; 22],
    lent: Lent,
)
    ensures share_after { share.new
        ≡ put lastg share.old (held_gains share.old gains.old) }
    ensures out_after { out.new
        ≡ applied
        (pitch_filtered out.old lent.entry.p.now gains.old exp.now lent.entry.ex.now
        lent.entry.ep.now)
        (band_gain (held_gains share.old gains.old)) }
{
    let Lent { p, ex, ep, .. } = lent;
    features::pitch_filter(out, p, gains, exp, ex, ep).unwrap();
    apply_gain(share, out, gains);
}

// A heard frame, from p and its energies on. `out` holds x and becomes the spectrum to be transformed back.
// Returns the voice.
fn process_heard(
    share: &mut [f32; PART],
    out: &mut [f32; 961],
    index: usize,
    lent: Lent,
    model: &[u8],
) -> f32
    requires inside { index ≤ 7 }
    requires as_kept { (out.old ≡ get kept_x share.old) × (lent.ex.now ≡ get kept_ex share.old) }
    requires reads { IsModel (read_of model.now) }
    ensures { Reads model.now (λ m. spoken_as share.new result out.new
        ≡ spoken_from share.old index lent.entry.p.now lent.entry.ep.now lent.entry.logs.now
        model.now m) }
{
    let mut features = [0.0f32; 42];
    let mut exp = [0.0f32; 22];
    let mut gains = [0.0f32; 22];
    compute_features(share, &mut features, &mut exp, index, out, lent);
    let voice = compute_rnn(share, &mut gains, model, &features);
    filter_and_apply_gain(share, out, &mut gains, &exp, lent);
    voice
}

// A heard frame. `out` holds x and becomes the spectrum to be transformed back. Returns the voice.
fn hear(
    share: &mut [f32; PART],
    out: &mut [f32; 961],
    index: usize,
    spectrum: &[f32; 961],
    logs: &[f32; 22],
    model: &[u8],
) -> f32
    requires inside { index ≤ 7 }
    requires as_kept { out.old ≡ get kept_x share.old }
    requires reads { IsModel (read_of model.now) }
    ensures { Reads model.now (λ m. spoken_as share.new result out.new
        ≡ spoken share.old index spectrum.now logs.now model.now m) }
{
    let mut p = [0.0f32; 961];
    let mut ex = [0.0f32; 22];
    let mut ep = [0.0f32; 22];
    rules::copy(&mut ex, &share[3169..3191]).unwrap();
    crate::lagged::transform(&mut p, &mut ep, spectrum);
    let lent = Lent {
        p: &p,
        ex: &ex,
        ep: &ep,
        logs,
    };
    process_heard(share, out, index, lent, model)
}

// Call 3 after its refusals: the frame is silent or heard, and the spectrum is written.
pub(crate) fn listen(
    share: &mut [f32; PART],
    out: &mut [f32; 961],
    index: usize,
    spectrum: &[f32; 961],
    logs: &[f32; 22],
    model: &[u8],
) -> Told
    requires inside { index ≤ 7 }
    requires reads { IsModel (read_of model.now) }
    ensures { Reads model.now (λ m. Worked
        (done3 share.old index spectrum.now logs.now model.now m)
        (reply_told result) share.new (out.old ∷ []) (out.new ∷ [])) }
{
    rules::copy(out, &share[2208..3169]).unwrap();
    match features::listen(&share[3169..3191]).unwrap() {
        None => Told::Silent,
        Some(energy) => {
            let voice = hear(share, out, index, spectrum, logs, model);
            Told::Heard { voice, energy }
        }
    }
}
