// A resume: it finishes the frame under way. The rest of its piece waits, or begins the next frame.
ghost use Rattle.std.specs.Prelude.{true, not, ◌≡◌, [], ◌∷◌, ◌≤◌, length, drop};
ghost use Rattle.frame.specs.Written.{nothing};
ghost use Rattle.samples.specs.Samples.{good};
ghost use Rattle.model.specs.Model.{read_of};
ghost use Rattle.frame.specs.Reply.{Done};
ghost use Rattle.frame.specs.Answer.{as_reply, test_as_reply};
ghost use Rattle.frame.specs.Effect.{Worked};
ghost use Rattle.frame.specs.Reply.{◌refusedIf◌, first_refusal};
ghost use Rattle.frame.specs.Frame.{counted, checked};
ghost use Rattle.pieces.specs.Pieces.{further, waited_of, resume_fits, resume};
ghost use Rattle.pieces.specs.Private.{resume_reply};

use frame::{Cause, Hearing, Told, Way};
use rules::Refusal;

// How many samples waited when the piece began, of which so many are in frames.
fn waited_of(progress: usize) -> usize
    requires { progress ≤ 4096 }
    ensures { result ≡ waited_of progress }
{
    480 * ((progress + 479) / 480) - progress
}

// Whether a resume of the noted piece fits its buffers.
#[tactic(auto, using(rules::proofs::Tests::tests), unfolding(crate::specs::Pieces::resume_fits))]
fn resume_fits(
    index: usize,
    piece: usize,
    progress: usize,
    size: usize,
    logs: usize,
    out: usize,
    sums: usize,
) -> bool
    ensures { result ≡ resume_fits index piece progress size logs out sums }
{
    index <= 7
        && progress >= 1
        && progress <= piece
        && piece <= 4096
        && size == piece
        && logs == 22
        && 480 * ((waited_of(progress) + size) / 480) <= out
        && sums == 22
}

// The tests after the lengths: refusals 7 to 9.
pub fn last_tests(hearing: Hearing, model: &[u8], fine: bool) -> Result<(), Cause>
    ensures { test_as_reply result ≡ first_refusal
        (checked (counted hearing) (read_of model.now) ∷ 9 refusedIf not fine ∷ []) }
{
    frame::check(model, hearing)?;
    if !fine {
        return Err(Cause::Plain(Refusal::BadSample));
    }
    Ok(())
}

// The tests of a resume: refusals 5 and 7 to 9.
#[tactic(auto, using(rules::proofs::Tests::tests), unfolding(crate::specs::Private::resume_reply))]
fn resume_tests(
    share: &[f32],
    hearing: Hearing,
    piece: usize,
    progress: usize,
    samples: &[f32],
    logs: &[f32],
    model: &[u8],
    out: usize,
    sums: usize,
) -> Result<(), Cause>
    ensures { test_as_reply result
        ≡ resume_reply share.now hearing piece progress
        samples.now logs.now model.now out sums }
{
    if share.len() != frame::SHARE
        || !resume_fits(
            hearing.index,
            piece,
            progress,
            samples.len(),
            logs.len(),
            out,
            sums,
        )
    {
        return Err(Cause::Plain(Refusal::WrongLength));
    }
    last_tests(hearing, model, samples::all_good(samples))
}

// The samples from `from` on wait, or the first 480 of them begin a frame and 22 sums are written.
fn go_on(share: &mut [f32], way: Way, samples: &[f32], from: usize, sums: &mut [f32])
    requires { (length share.old ≡ 6144) × (from ≤ length samples.now) × (good samples.now ≡ true)
        × (length sums.old ≡ 22) }
    ensures { Worked (further Done share.old way (drop from samples.now) nothing)
        Done share.new ([] ∷ sums.old ∷ []) ([] ∷ sums.new ∷ []) }
{
    if samples.len() - from < 480 {
        crate::waiting::keep(share, samples, from);
        return;
    }
    let end = from + 480;
    crate::frames::enter(share, way, &samples[from..end], sums);
}

// Finishes the frame under way with its logarithms, and writes it to its place in the output. The rest of the
// samples waits, or 480 of them begin the next frame and 22 sums are written. The frame is silent, or heard
// with voice and energy.
pub fn resume(
    share: &mut [f32],
    hearing: Hearing,
    piece: usize,
    progress: usize,
    samples: &[f32],
    logs: &[f32],
    model: &[u8],
    out: &mut [f32],
    sums: &mut [f32],
) -> Result<Told, Cause>
    ensures { Worked
        (resume share.old hearing piece progress
        samples.now logs.now model.now (length out.old)
        (length sums.old))
        (as_reply result) share.new (out.old ∷ sums.old ∷ []) (out.new ∷ sums.new ∷ []) }
{
    resume_tests(
        share,
        hearing,
        piece,
        progress,
        samples,
        logs,
        model,
        out.len(),
        sums.len(),
    )?;
    let start = 480 * ((progress + 479) / 480 - 1);
    let told = crate::frames::leave(share, hearing, logs, model, out, start);
    let way = hearing.way;
    go_on(share, way, samples, progress, sums);
    Ok(told)
}
