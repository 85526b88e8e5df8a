// The features of a heard frame.
ghost use Rattle.std.specs.Prelude.{◌≡◌, length};
ghost use Rattle.features.specs.Features.{normalised, normalised_corr, pitch_features, with_cepstrum, features_of};

use crate::cepstra::{Row, add_deltas, cepstrum_of, remember};

// Divides the correlation of each band by the root of the product of both energies.
fn normalise(exp: &mut [f32; 22], ex: &[f32; 22], ep: &[f32; 22])
    ensures { exp.new ≡ normalised exp.old ex.now ep.now }
{
    for (i, corr) in exp.iter_mut().enumerate() {
        *corr = *corr / numbers::sqrt(0.001 + ex[i] * ep[i]);
    }
}

// The normalised correlation of x and p in each band.
#[tactic(auto, using(rules::proofs::Refusals::left), unfolding(crate::specs::Features::normalised_corr))]
pub(crate) fn correlate(
    exp: &mut [f32; 22],
    x: &[f32; 961],
    p: &[f32; 961],
    ex: &[f32; 22],
    ep: &[f32; 22],
)
    ensures { exp.new ≡ normalised_corr x.now p.now ex.now ep.now }
{
    bands::compute_band_corr(exp, x, p).unwrap();
    normalise(exp, ex, ep);
}

// The seven features that come from the pitch.
#[tactic(auto, using(rules::proofs::Refusals::left), unfolding(crate::specs::Features::pitch_features))]
fn pitch_features(exp: &[f32; 22], lag: f32) -> [f32; 7]
    ensures { result ≡ pitch_features exp.now lag }
{
    let mut tmp = [0.0f32; 22];
    bands::dct(&mut tmp, exp).unwrap();
    [
        tmp[0] - 1.3,
        tmp[1] - 0.9,
        tmp[2],
        tmp[3],
        tmp[4],
        tmp[5],
        0.01 * (lag - 300.0),
    ]
}

// All 42 features. The cepstrum is remembered before its differences are taken.
pub(crate) fn fill_features(
    features: &mut [f32; 42],
    mem: &mut [f32; 176],
    newest: Row,
    exp: &[f32; 22],
    lag: f32,
    logs: &[f32; 22],
)
    ensures features_after { features.new ≡ features_of exp.now lag logs.now mem.old newest.index }
    ensures mem_after { mem.new ≡ with_cepstrum logs.now mem.old newest.index }
{
    let ceps = cepstrum_of(logs);
    features[34..41].copy_from_slice(&pitch_features(exp, lag));
    features[0..22].copy_from_slice(&ceps);
    remember(mem, newest, &ceps);
    add_deltas(features, mem, newest);
}
