// The second half of a frame: call 3 with the spectrum of the window that call 2 gave, and call 4 with the inverse of
// what call 3 wrote.
ghost use Rattle.std.specs.Prelude.{[], ◌∷◌, ◌≡◌, length};
ghost use Rattle.frame.specs.Answer.{as_reply};
ghost use Rattle.frame.specs.Effect.{Worked};
ghost use Rattle.frame.specs.Reply.{Done};
ghost use Rattle.frame.specs.Frame.{call4};
ghost use Rattle.halves.specs.Ways.{forward_by, inverse_by};
ghost use Rattle.halves.specs.Halves.{looked_back, second_half};

use frame::{Cause, Hearing, PART, Told, Way};
use rules::Refusal;

// The spectrum of the window that call 2 gave, for the lag that the share keeps.
fn look_back(spectrum: &mut [f32; 961], share: &[f32], way: Way)
    requires { length share.now ≡ 3778 }
    ensures { spectrum.new ≡ forward_by way (looked_back share.now) }
{
    let lag = finder::kept::whole_lag(share[3191]);
    let from = 768 - lag;
    let mut window = [0.0f32; 960];
    bands::apply_window(&mut window, &share[from..from + 960]).unwrap();
    crate::ways::forward(spectrum, &window, way);
}

// Call 4 with the inverse of what call 3 wrote.
fn synthesise(share: &mut [f32], way: Way, spectrum: &[f32; 961], out: &mut [f32])
    requires { (length share.old ≡ 3778) × (length out.old ≡ 480) }
    ensures { Worked (call4 share.old (inverse_by way spectrum.now)
        (length out.old))
        Done share.new (out.old ∷ []) (out.new ∷ []) }
{
    let mut samples = [0.0f32; 960];
    crate::ways::inverse(&mut samples, spectrum, way);
    frame::call4(share, &samples, out).unwrap();
}

// The second half. Takes 22 logarithms and the model, and writes 480 samples. The frame is silent, or heard
// with voice and energy.
#[tactic(auto, using(rules::proofs::Tests::tests), unfolding(crate::specs::Halves::second_half))]
pub fn second_half(
    share: &mut [f32],
    hearing: Hearing,
    logs: &[f32],
    model: &[u8],
    out: &mut [f32],
) -> Result<Told, Cause>
    ensures { Worked
        (second_half share.old hearing logs.now model.now (length out.old))
        (as_reply result) share.new (out.old ∷ []) (out.new ∷ []) }
{
    if share.len() != PART || logs.len() != 22 || out.len() != 480 || hearing.index > 7 {
        return Err(Cause::Plain(Refusal::WrongLength));
    }
    let way = hearing.way;
    let mut spectrum = [0.0f32; 961];
    look_back(&mut spectrum, share, way);
    let mut shaped = [0.0f32; 961];
    let told = frame::call3(share, hearing, &spectrum, logs, model, &mut shaped)?;
    synthesise(share, way, &shaped, out);
    Ok(told)
}
