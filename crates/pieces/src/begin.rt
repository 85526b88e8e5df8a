// A piece: its samples wait after those that wait already, or 480 of them all begin its first frame.
ghost use Rattle.std.specs.Prelude.{◌≡◌, [], ◌∷◌, length};
ghost use Rattle.frame.specs.Answer.{as_reply, test_as_reply};
ghost use Rattle.frame.specs.Effect.{Worked};
ghost use Rattle.pieces.specs.Pieces.{piece_fits, piece};
ghost use Rattle.pieces.specs.Private.{piece_reply};

use frame::{Cause, Told, Way};
use rules::Refusal;

// Whether a piece of this size, with so many samples waiting, fits its buffers.
#[tactic(auto, using(rules::proofs::Tests::tests), unfolding(crate::specs::Pieces::piece_fits))]
pub fn piece_fits(waiting: usize, size: usize, out: usize, sums: usize) -> bool
    ensures { result ≡ piece_fits waiting size out sums }
{
    waiting <= 479
        && size >= 1
        && size <= 4096
        && 480 * ((waiting + size) / 480) <= out
        && sums == 22
}

// The tests of a piece: refusals 5 and 9.
#[tactic(auto, using(rules::proofs::Tests::tests), unfolding(crate::specs::Private::piece_reply))]
fn piece_tests(
    share: &[f32],
    waiting: usize,
    samples: &[f32],
    out: usize,
    sums: usize,
) -> Result<(), Cause>
    ensures { test_as_reply result ≡ piece_reply share.now waiting samples.now out sums }
{
    if share.len() != frame::SHARE || !piece_fits(waiting, samples.len(), out, sums) {
        return Err(Cause::Plain(Refusal::WrongLength));
    }
    if !crate::waiting::waiting_good(share, waiting) || !samples::all_good(samples) {
        return Err(Cause::Plain(Refusal::BadSample));
    }
    Ok(())
}

// Begins a piece. Its samples and those waiting wait on, or the first 480 of them begin a frame and 22 sums
// are written. Nothing is written to `out`.
pub fn piece(
    share: &mut [f32],
    way: Way,
    waiting: usize,
    samples: &[f32],
    out: &mut [f32],
    sums: &mut [f32],
) -> Result<Told, Cause>
    ensures { Worked
        (piece share.old way waiting samples.now (length out.old)
        (length sums.old))
        (as_reply result) share.new (out.old ∷ sums.old ∷ []) (out.new ∷ sums.new ∷ []) }
{
    piece_tests(share, waiting, samples, out.len(), sums.len())?;
    let mut first = [0.0f32; 480];
    crate::waiting::gather(&mut first, share, waiting, samples);
    if waiting + samples.len() < 480 {
        crate::waiting::settle(share, &first);
        return Ok(Told::Done);
    }
    crate::waiting::empty(share);
    crate::frames::enter(share, way, &first, sums);
    Ok(Told::Done)
}
