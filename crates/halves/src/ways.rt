// What a bench's way decides: which lag and which transforms.
ghost use Rattle.std.specs.Prelude.{◌≡◌, length};
ghost use Rattle.frame.specs.declared.Way.TheVariants.{Nnnoiseless};
ghost use Rattle.halves.specs.Ways.{lag_by, remembered, forward_by, inverse_by};

use frame::{Lag, Way};

// The finder's period. The finder remembers it, with its gain.
fn find(share: &mut [f32]) -> Lag
    requires { length share.old ≡ 3778 }
    ensures lag_told { result.0 ≡ lag_by Nnnoiseless share.old }
    ensures share_after { share.new ≡ remembered Nnnoiseless share.old }
{
    let found = finder::find(share[3776], share[3777], &share[0..1728]).unwrap();
    share[3776] = found.period as f32;
    share[3777] = found.gain;
    Lag(found.period)
}

// The lag of a way. What is remembered of it is stored.
pub(crate) fn lag(share: &mut [f32], way: Way) -> Lag
    requires { length share.old ≡ 3778 }
    ensures lag_told { result.0 ≡ lag_by way share.old }
    ensures share_after { share.new ≡ remembered way share.old }
{
    match way {
        Way::Own => Lag(lag::lag_of(&share[0..1728]).unwrap()),
        Way::Nnnoiseless => find(share),
    }
}

// The spectrum of 960 samples.
#[tactic(auto, using(rules::proofs::Refusals::left), unfolding(crate::specs::Ways::forward_by))]
pub(crate) fn forward(out: &mut [f32; 961], samples: &[f32; 960], way: Way)
    ensures { out.new ≡ forward_by way samples.now }
{
    match way {
        Way::Own => transforms::forward(out, samples).unwrap(),
        Way::Nnnoiseless => fft::forward(out, samples).unwrap(),
    }
}

// The samples of a spectrum.
#[tactic(auto, using(rules::proofs::Refusals::left), unfolding(crate::specs::Ways::inverse_by))]
pub(crate) fn inverse(out: &mut [f32; 960], spectrum: &[f32; 961], way: Way)
    ensures { out.new ≡ inverse_by way spectrum.now }
{
    match way {
        Way::Own => transforms::inverse(out, spectrum).unwrap(),
        Way::Nnnoiseless => fft::inverse(out, spectrum).unwrap(),
    }
}
