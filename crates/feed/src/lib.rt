// A block of recorded bytes in one call: a bench's own channel of it is unpacked, taken, and packed again, with a
// record of the side sheet for each frame, which carries the bench's own side. What may refuse it is tested before
// anything changes.
#![tactic(auto)]

ghost use Rattle.std.specs.Prelude.{[], ◌∷◌, length};
ghost use Rattle.desk.specs.Answer.{answer_of};
ghost use Rattle.desk.specs.Gate.{BENCHES, side_of};
ghost use Rattle.frame.specs.Effect.{WorkedBoth};
ghost use Rattle.whole.specs.Whole.{take};
ghost use Rattle.feed.specs.Feed.{ROOM, block_of, fed_by, feed};
ghost use Rattle.feed.specs.Private.{Ready};

use desk::{Bench, Record};
use frame::{Cause, Told};
use rules::Refusal;

mod out;
mod refusals;

// What comes of the samples of a channel is handed out, where their take is not refused.
// Stays: eight parameters. They are the caller's own, `feed` alone calls it, and a struct of borrowed parts is taken
// apart here at once, so that it is no plainer.
fn clean(
    side: Bench,
    rec: Record,
    store: &mut [f32],
    samples: &[f32],
    model: &[u8],
    cleaned: &mut [u8],
    records: &mut [u8],
    answers: &mut [f32],
) -> Result<(Told, Record), Cause>
    requires { Ready rec.waiting (length samples.now) (length cleaned.old) (length records.old)
        (length answers.old) }
    ensures { WorkedBoth
        (fed_by (side_of side.0) rec.frame
        (take BENCHES side.0 rec store.old samples.now model.now ROOM
        (length answers.old)))
        (answer_of rec result) store.new (answers.old ∷ []) (answers.new ∷ [])
        (cleaned.old ∷ records.old ∷ []) (cleaned.new ∷ records.new ∷ []) }
{
    let frames = (rec.waiting + samples.len()) / 480;
    let mut out = [0.0f32; 4320];
    let answer = whole::take(side, rec, store, samples, model, &mut out, answers)?;
    let own = desk::side_of(side) as u32;
    out::hand_out(cleaned, records, &out, &answers[..], own, rec.frame, frames);
    Ok(answer)
}

// A block and the model in. For each frame that its samples complete this writes 960 bytes, a record of 8 bytes, and
// three answers: heard or not, voice, energy.
// Stays: the format's number, here and in `samples_in`. It is the C interface's, and any number may come.
pub fn feed(
    side: Bench,
    rec: Record,
    store: &mut [f32],
    block: &[u8],
    format: u32,
    channels: usize,
    channel: usize,
    model: &[u8],
    cleaned: &mut [u8],
    records: &mut [u8],
    answers: &mut [f32],
) -> Result<(Told, Record), Cause>
    ensures { WorkedBoth
        (feed BENCHES side.0 rec store.old (block_of block.now format channels channel)
        model.now
        (length cleaned.old) (length records.old) (length answers.old))
        (answer_of rec result) store.new (answers.old ∷ []) (answers.new ∷ [])
        (cleaned.old ∷ records.old ∷ []) (cleaned.new ∷ records.new ∷ []) }
{
    desk::gate(side, rec, store.len(), desk::PIECE)?;
    let n = refusals::samples_in(block.len(), format, channels, channel);
    if !refusals::fits(rec.waiting, n, cleaned.len(), records.len(), answers.len()) {
        return Err(Refusal::WrongLength.into());
    }
    let mut places = [0.0f32; 4096];
    let samples = &mut places[0..n];
    pcm::unpack(samples, block, format, channels, channel).unwrap();
    clean(
        side,
        rec,
        store,
        &samples[..],
        model,
        cleaned,
        records,
        answers,
    )
}
