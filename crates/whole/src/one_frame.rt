// A frame in one call: one table of refusals, then its two halves on the side's share.
ghost use Rattle.std.specs.Prelude.{[], ◌∷◌, length};
ghost use Rattle.desk.specs.Answer.{answer_of};
ghost use Rattle.desk.specs.Gate.{BENCHES};
ghost use Rattle.frame.specs.Effect.{Worked};
ghost use Rattle.whole.specs.Whole.{frame};

use desk::{Bench, Record};
use frame::{Cause, Told};

// Takes 480 samples and the model, and writes 480 numbers. The frame is silent, or heard with voice and
// energy.
pub fn frame(
    side: Bench,
    rec: Record,
    store: &mut [f32],
    samples: &[f32],
    model: &[u8],
    out: &mut [f32],
) -> Result<(Told, Record), Cause>
    ensures { Worked
        (frame BENCHES side.0 rec store.old samples.now model.now
        (length out.old))
        (answer_of rec result) store.new (out.old ∷ []) (out.new ∷ []) }
{
    crate::refusals::frame_reply(side, rec, store.len(), samples, model, out.len())?;
    let start = side.0 * frame::SHARE;
    let end = start + frame::SHARE;
    Ok(crate::spoken::process_frame(&mut store[start..end], rec, samples, model, out))
}
