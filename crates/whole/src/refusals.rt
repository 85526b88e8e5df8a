// The refusals of a call, tested before anything changes.
ghost use Rattle.std.specs.Prelude.{◌≡◌, ◌++◌, ◌*◌, ◌≤◌, ◌<◌, length};
ghost use Rattle.rules.specs.Place.{get};
ghost use Rattle.samples.specs.Samples.{good};
ghost use Rattle.frame.specs.Answer.{test_as_reply};
ghost use Rattle.frame.specs.Share.{SHARE};
ghost use Rattle.pieces.specs.Pieces.{waiting_in};
ghost use Rattle.desk.specs.Gate.{BENCHES, share_of};
ghost use Rattle.whole.specs.Whole.{frame_reply, take_reply};

use desk::{Bench, Record};
use frame::Cause;
use rules::Refusal;

// The refusal of a frame, if there is one.
#[tactic(auto, using(desk::proofs::Results::same_error), unfolding(crate::specs::Whole::frame_reply))]
pub(crate) fn frame_reply(
    side: Bench,
    rec: Record,
    len: usize,
    samples: &[f32],
    model: &[u8],
    out: usize,
) -> Result<(), Cause>
    ensures { test_as_reply result ≡ frame_reply BENCHES side.0 rec len samples.now model.now out }
{
    desk::gate(side, rec, len, 1)?;
    if samples.len() != 480 {
        return Err(Refusal::WrongLength.into());
    }
    if out != 480 {
        return Err(Refusal::WrongLength.into());
    }
    pieces::last_tests(rec.hearing, model, samples::all_good(samples))
}

// Whether the samples that wait on a side and those of a piece are good.
fn both_good(side: usize, waiting: usize, store: &[f32], samples: &[f32]) -> bool
    requires { (side < BENCHES) × (length store.now ≡ BENCHES * SHARE) × (waiting ≤ 479) }
    ensures { result ≡ good (waiting_in waiting (get (share_of side) store.now) ++ samples.now) }
{
    let start = side * frame::SHARE + frame::PART;
    let end = start + waiting;
    samples::all_good(&store[start..end]) && samples::all_good(samples)
}

// The refusal of a take, if there is one.
pub(crate) fn take_reply(
    side: Bench,
    rec: Record,
    store: &[f32],
    piece: &[f32],
    model: &[u8],
    out: usize,
    answers: usize,
) -> Result<(), Cause>
    ensures { test_as_reply result
        ≡ take_reply BENCHES side.0 rec store.now piece.now model.now out answers }
{
    desk::gate(side, rec, store.len(), desk::PIECE)?;
    if !pieces::piece_fits(rec.waiting, piece.len(), out, 22) {
        return Err(Refusal::WrongLength.into());
    }
    if 3 * ((rec.waiting + piece.len()) / 480) > answers {
        return Err(Refusal::WrongLength.into());
    }
    let fine = both_good(side.0, rec.waiting, store, piece);
    pieces::last_tests(rec.hearing, model, fine)
}
