// Dictation on one share: for each frame a first half, our logarithms and a second half; the rest of the
// samples waits. The callers have tested everything that could refuse it.
// Stays: the share's length and the limit of `waiting` as facts. They are parts of `Fit` and `Ready`, which the callers
// have; an array in their place needs a conversion in both callers, and is no plainer.
ghost use Rattle.std.specs.Prelude.{Ok, true, [], ◌∷◌, ◌++◌, ◌≡◌, ◌+◌, ◌*◌, ◌≤◌, length, drop};
ghost use Rattle.frame.specs.Effect.{Worked};
ghost use Rattle.frame.specs.Reply.{Done};
ghost use Rattle.frame.specs.Written.{from, over, first_in};
ghost use Rattle.samples.specs.Samples.{good};
ghost use Rattle.pieces.specs.Pieces.{waiting_in, padded_to, waits, completes};
ghost use Rattle.desk.specs.Answer.{answer_of};
ghost use Rattle.desk.specs.Surface.{heard_of};
ghost use Rattle.dictation.specs.Dictation.{frame_on};
ghost use Rattle.whole.specs.Whole.{our_lent, taken_on};
ghost use Rattle.whole.specs.Private.{Fit, Ready, frame_of};

use desk::Record;
use frame::{PART, Told};

// One frame on a share: takes 480 samples and writes 480 numbers, with our logarithms between its halves.
pub(crate) fn process_frame(
    share: &mut [f32],
    rec: Record,
    samples: &[f32],
    model: &[u8],
    out: &mut [f32],
) -> (Told, Record)
    requires fit { Fit rec share.old model.now }
    requires samples_len { (length samples.now ≡ 480) × (good samples.now ≡ true) × (length out.old ≡ 480) }
    ensures { Worked (frame_on rec share.old samples.now (our_lent model.now))
        (answer_of rec (Ok result)) share.new (out.old ∷ []) (out.new ∷ []) }
{
    let hearing = rec.hearing;
    let way = hearing.way;
    let mut sums = [0.0f32; 22];
    halves::first_half(&mut share[0..PART], way, samples, &mut sums).unwrap();
    let mut logs = [0.0f32; 22];
    logs::logs(&mut logs, &sums).unwrap();
    let outcome = halves::second_half(&mut share[0..PART], hearing, &logs, model, out);
    desk::told_second(desk::holding(3, rec, 0, 0, 0), outcome).unwrap()
}

// Stays: the test for frame 0. Without it each place is the lesser of two numbers or a difference that stops at 0,
// which is no plainer: samples that wait are in frame 0 alone.
// `out` becomes the samples from frame j on, of those that wait followed by the piece's, as far as it has
// room, filled up with zeros.
fn gather(out: &mut [f32], share: &[f32], waiting: usize, piece: &[f32], j: usize)
    requires { (length share.now ≡ 6144) × (waiting ≤ 479) × (length piece.now ≤ 4096)
        × (480 * j ≤ waiting + length piece.now) }
    ensures { out.new
        ≡ padded_to (length out.old)
        (drop (480 * j) (waiting_in waiting share.now ++ piece.now)) }
{
    if j == 0 {
        let end = PART + waiting;
        pieces::join(out, &share[PART..end], piece);
        return;
    }
    let start = 480 * j - waiting;
    pieces::join(out, &piece[0..0], &piece[start..]);
}

// Frame j, counted from 0, of the samples that wait followed by the piece's, and its three answers.
// Stays: eight parameters. `dictate` alone calls it, and a struct of borrowed parts is taken apart here at once, so
// it is no plainer.
fn step(
    share: &mut [f32],
    rec: Record,
    waiting: usize,
    piece: &[f32],
    model: &[u8],
    out: &mut [f32],
    answers: &mut [f32],
    j: usize,
) -> Record
    requires fit { Fit rec share.old model.now }
    requires ready { Ready waiting share.old piece.now (j + 1) (length out.old) (length answers.old) }
    ensures value { result ≡ (frame_of j waiting rec share.old piece.now
        model.now).answer.rec }
    ensures share_after { share.new
        ≡ (frame_of j waiting rec share.old piece.now model.now).kept }
    ensures out_after { out.new
        ≡ over
        (from (480 * j) (first_in
        (frame_of j waiting rec share.old piece.now model.now).written))
        out.old }
    ensures answers_after { answers.new
        ≡ over
        (from (3 * j)
        (heard_of (frame_of j waiting rec share.old piece.now model.now).answer.reply))
        answers.old }
{
    let mut samples = [0.0f32; 480];
    gather(&mut samples, share, waiting, piece, j);
    let start = 480 * j;
    let end = start + 480;
    let (told, next) = process_frame(share, rec, &samples, model, &mut out[start..end]);
    crate::heard::tell(answers, j, told);
    next
}

// The places at which samples may wait end here. They begin at frame::PART.
const TO: usize = PART + 479;

// Lets the samples after so many frames wait.
#[tactic(auto, using(rules::proofs::Refusals::left), unfolding(rules::specs::Place::get, rules::specs::Place::put))]
fn settle(share: &mut [f32], waiting: usize, piece: &[f32], frames: usize)
    requires { (length share.old ≡ 6144) × (waiting ≤ 479) × (length piece.now ≤ 4096)
        × (480 * frames ≤ waiting + length piece.now) }
    ensures { share.new
        ≡ waits share.old
        (drop (480 * frames) (waiting_in waiting share.old ++ piece.now)) }
{
    let mut rest = [0.0f32; 479];
    gather(&mut rest, share, waiting, piece, frames);
    rules::copy(&mut share[PART..TO], &rest).unwrap();
}

// All frames that the samples complete, one after another. The rest waits.
// Stays: the loop counts. Frame j is cut out of two slices in a row, so that there is no slice to go over.
pub(crate) fn dictate(
    share: &mut [f32],
    rec: Record,
    piece: &[f32],
    model: &[u8],
    out: &mut [f32],
    answers: &mut [f32],
) -> Record
    requires fit { Fit rec share.old model.now }
    requires ready { Ready rec.waiting share.old piece.now (completes rec.waiting (length piece.now))
        (length out.old) (length answers.old) }
    ensures { Worked (taken_on rec share.old piece.now model.now)
        (record { reply = Done; rec = result }) share.new (out.old ∷ answers.old ∷ [])
        (out.new ∷ answers.new ∷ []) }
{
    let waiting = rec.waiting;
    let frames = (waiting + piece.len()) / 480;
    let mut last = rec;
    for j in 0..frames {
        last = step(share, last, waiting, piece, model, out, answers, j);
    }
    settle(share, waiting, piece, frames);
    let left = waiting + piece.len() - 480 * frames;
    desk::holding(1, last, left, 0, 0)
}
