// A piece in one call: one table of refusals, then the dictation of its samples on the side's share.
ghost use Rattle.std.specs.Prelude.{[], ◌∷◌, length};
ghost use Rattle.desk.specs.Answer.{answer_of};
ghost use Rattle.desk.specs.Gate.{BENCHES};
ghost use Rattle.frame.specs.Effect.{Worked};
ghost use Rattle.whole.specs.Whole.{take};

use desk::{Bench, Record};
use frame::{Cause, Told};

// Takes 1 to 4,096 samples and the model. Writes 480 numbers and three answers (heard, voice, energy) for
// each frame that they complete.
pub fn take(
    side: Bench,
    rec: Record,
    store: &mut [f32],
    piece: &[f32],
    model: &[u8],
    out: &mut [f32],
    answers: &mut [f32],
) -> Result<(Told, Record), Cause>
    ensures { Worked
        (take BENCHES side.0 rec store.old piece.now model.now
        (length out.old) (length answers.old))
        (answer_of rec result) store.new (out.old ∷ answers.old ∷ [])
        (out.new ∷ answers.new ∷ []) }
{
    crate::refusals::take_reply(side, rec, store, piece, model, out.len(), answers.len())?;
    let start = side.0 * frame::SHARE;
    let end = start + frame::SHARE;
    let last = crate::spoken::dictate(&mut store[start..end], rec, piece, model, out, answers);
    Ok((Told::Done, last))
}
