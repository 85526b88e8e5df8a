// whole: a frame, or a piece of dictation, in one call, with our own logarithms. `record`, `store`, `model` and the
// refusals are as for the desk's calls.
ghost use Rattle.std.specs.Prelude.{[], ◌∷◌, length};
ghost use Rattle.desk.specs.Gate.{BENCHES};
ghost use Rattle.frame.specs.Effect.{Worked};
ghost use Rattle.desk.specs.Surface.{out_of, handed};
ghost use Rattle.whole.specs.Surface.{hosted_frame, hosted_take};

use crate::of_desk::{hand_back, places, record_in, tell};
use desk::Bench;

// Cleans one frame. `samples` are its 480, `out` gets 480, and `answer` three numbers: heard (1 or 0), voice,
// energy.
#[unsafe(no_mangle)]
pub extern "C" fn tuppence_frame(
    record: &mut [u32],
    store: &mut [f32],
    side: u32,
    samples: &[f32],
    model: &[u8],
    out: &mut [f32],
    answer: &mut [f32],
) -> u32
    ensures { Worked
        (handed side «record».old
        (hosted_frame BENCHES side «record».old store.old samples.now
        model.now
        (out_of (length answer.old) (length out.old))))
        (result, «record».new) store.new
        (out.old ∷ answer.old ∷ []) (out.new ∷ answer.new ∷ []) }
{
    let end = places(answer.len(), out.len());
    let given = whole::frame(
        Bench(side as usize),
        record_in(side, record),
        store,
        samples,
        model,
        &mut out[0..end],
    );
    tell(answer, given);
    hand_back(side, record, given)
}

// Cleans 1 to 4,096 samples, `piece`. For each frame that they complete together with the samples that wait, `out`
// gets 480 samples and `answers` three numbers; what these have beyond that stays. 4,320 and 27 places are always
// enough.
#[unsafe(no_mangle)]
pub extern "C" fn tuppence_take(
    record: &mut [u32],
    store: &mut [f32],
    side: u32,
    piece: &[f32],
    model: &[u8],
    out: &mut [f32],
    answers: &mut [f32],
) -> u32
    ensures { Worked
        (handed side «record».old
        (hosted_take BENCHES side «record».old store.old piece.now model.now
        (length out.old) (length answers.old)))
        (result, «record».new) store.new
        (out.old ∷ answers.old ∷ []) (out.new ∷ answers.new ∷ []) }
{
    let given = whole::take(
        Bench(side as usize),
        record_in(side, record),
        store,
        piece,
        model,
        out,
        answers,
    );
    hand_back(side, record, given)
}
