// The functions of crates/export/src/of_feed.rt for C: the same names and contracts.
// tools/make_export_c.sh makes this file.
ghost use Rattle.std.specs.Prelude.{[], ◌∷◌, length};
ghost use Rattle.desk.specs.Gate.{BENCHES};
ghost use Rattle.frame.specs.Effect.{WorkedBoth};
ghost use Rattle.desk.specs.Surface.{handed};
ghost use Rattle.feed.specs.Feed.{block_of};
ghost use Rattle.feed.specs.Surface.{hosted_feed};

#[unsafe(no_mangle)]
pub extern "C" fn tuppence_feed(
    record: &mut [u32],
    store: &mut [f32],
    side: u32,
    bytes: &[u8],
    format: u32,
    channels: u32,
    channel: u32,
    model: &[u8],
    out: &mut [u8],
    records: &mut [u8],
    answers: &mut [f32],
) -> u32
    ensures { WorkedBoth
        (handed side «record».old
        (hosted_feed BENCHES side «record».old store.old
        (block_of bytes.now format channels channel)
        model.now (length out.old) (length records.old)
        (length answers.old)))
        (result, «record».new) store.new (answers.old ∷ []) (answers.new ∷ [])
        (out.old ∷ records.old ∷ []) (out.new ∷ records.new ∷ []) }
{
    export::of_feed::tuppence_feed(
        record, store, side, bytes, format, channels, channel, model, out, records, answers,
    )
}
