// The sister of call 2. It is given no lag, and finds its own in the share's `input_mem` (request 04).
ghost use Rattle.std.specs.Prelude.{[], ◌∷◌, length};
ghost use Rattle.frame.specs.Answer.{as_reply};
ghost use Rattle.frame.specs.Effect.{Worked};
ghost use Rattle.halves.specs.Own.{call2_own};

use frame::{Cause, Lag, Told};
use rules::Refusal;

// Call 2 with our own lag. Takes the first spectrum and writes 960 windowed numbers and 22 sums.
#[tactic(auto, using(rules::proofs::Tests::tests), unfolding(crate::specs::Own::call2_own, frame::specs::Frame::call2))]
pub fn call2_own(
    share: &mut [f32],
    spectrum: &[f32],
    window: &mut [f32],
    sums: &mut [f32],
) -> Result<Told, Cause>
    ensures { Worked
        (call2_own share.old spectrum.now (length window.old)
        (length sums.old))
        (as_reply result) share.new (window.old ∷ sums.old ∷ [])
        (window.new ∷ sums.new ∷ []) }
{
    if share.len() != frame::PART {
        return Err(Cause::Plain(Refusal::WrongLength));
    }
    let lag = lag::lag_of(&share[0..1728]).unwrap();
    frame::call2(share, spectrum, Lag(lag), window, sums)
}
