// feed: a block of recorded bytes in one call. `record` is a side's record as twelve numbers, and `store` 98,304, as in
// `of_desk`; `model` is a model file's bytes. Returned is 0 or the refusal.
ghost use Rattle.std.specs.Prelude.{[], ◌∷◌, length};
ghost use Rattle.desk.specs.Gate.{BENCHES};
ghost use Rattle.frame.specs.Effect.{WorkedBoth};
ghost use Rattle.desk.specs.Surface.{handed};
ghost use Rattle.feed.specs.Feed.{block_of};
ghost use Rattle.feed.specs.Surface.{hosted_feed};

use crate::of_desk::{hand_back, record_in};
use desk::Bench;

// `bytes` are 1 to 4,096 whole samples of all channels, little end first; `format` is 16, 24, 32 for floats, or 33 for
// 32-bit integers; of so many channels by turns one is the bench's. For each frame that its samples complete `out` has
// 960 bytes, `records` the 8 bytes of its record in the side sheet, with the bench's own side, and `answers` three
// numbers, or more, which stay.
#[unsafe(no_mangle)]
pub extern "C" fn tuppence_feed(
    record: &mut [u32],
    store: &mut [f32],
    side: u32,
    bytes: &[u8],
    format: u32,
    channels: u32,
    channel: u32,
    model: &[u8],
    out: &mut [u8],
    records: &mut [u8],
    answers: &mut [f32],
) -> u32
    ensures { WorkedBoth
        (handed side «record».old
        (hosted_feed BENCHES side «record».old store.old
        (block_of bytes.now format channels channel)
        model.now (length out.old) (length records.old)
        (length answers.old)))
        (result, «record».new) store.new (answers.old ∷ []) (answers.new ∷ [])
        (out.old ∷ records.old ∷ []) (out.new ∷ records.new ∷ []) }
{
    let given = feed::feed(
        Bench(side as usize),
        record_in(side, record),
        store,
        bytes,
        format,
        channels as usize,
        channel as usize,
        model,
        out,
        records,
        answers,
    );
    hand_back(side, record, given)
}
