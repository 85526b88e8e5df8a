// The first half of a frame: call 1, the forward transform of its window, and call 2 with the lag.
ghost use Rattle.std.specs.Prelude.{[], ◌∷◌, ◌≡◌, length};
ghost use Rattle.frame.specs.Answer.{as_reply};
ghost use Rattle.frame.specs.Effect.{Worked};
ghost use Rattle.halves.specs.Halves.{analysed, first_half};

use frame::{Cause, PART, Told, Way};
use rules::Refusal;

// Call 2 with the spectrum of call 1's window. Its own window replaces that window.
fn analyse(
    share: &mut [f32],
    way: Way,
    window: &mut [f32; 960],
    sums: &mut [f32],
) -> Result<Told, Cause>
    requires { (length share.old ≡ 3778) × (length sums.old ≡ 22) }
    ensures { Worked (analysed share.old way window.old (length sums.old))
        (as_reply result) share.new (sums.old ∷ []) (sums.new ∷ []) }
{
    let mut spectrum = [0.0f32; 961];
    crate::ways::forward(&mut spectrum, window, way);
    let lag = crate::ways::lag(share, way);
    frame::call2(share, &spectrum, lag, window, sums)
}

// The first half. Takes 480 samples and writes 22 sums, whose logarithms the second half needs.
#[tactic(auto, using(rules::proofs::Tests::tests), unfolding(crate::specs::Halves::first_half))]
pub fn first_half(
    share: &mut [f32],
    way: Way,
    samples: &[f32],
    sums: &mut [f32],
) -> Result<Told, Cause>
    ensures { Worked (first_half share.old way samples.now (length sums.old))
        (as_reply result) share.new (sums.old ∷ []) (sums.new ∷ []) }
{
    if share.len() != PART || samples.len() != 480 || sums.len() != 22 {
        return Err(Cause::Plain(Refusal::WrongLength));
    }
    let mut window = [0.0f32; 960];
    frame::call1(share, samples, &mut window)?;
    analyse(share, way, &mut window, sums)
}
