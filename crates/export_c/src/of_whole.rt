// The functions of crates/export/src/of_whole.rt for C: the same names and contracts.
// tools/make_export_c.sh makes this file.
ghost use Rattle.std.specs.Prelude.{[], ◌∷◌, length};
ghost use Rattle.desk.specs.Gate.{BENCHES};
ghost use Rattle.frame.specs.Effect.{Worked};
ghost use Rattle.desk.specs.Surface.{out_of, handed};
ghost use Rattle.whole.specs.Surface.{hosted_frame, hosted_take};

#[unsafe(no_mangle)]
pub extern "C" fn tuppence_frame(
    record: &mut [u32],
    store: &mut [f32],
    side: u32,
    samples: &[f32],
    model: &[u8],
    out: &mut [f32],
    answer: &mut [f32],
) -> u32
    ensures { Worked
        (handed side «record».old
        (hosted_frame BENCHES side «record».old store.old samples.now
        model.now
        (out_of (length answer.old) (length out.old))))
        (result, «record».new) store.new
        (out.old ∷ answer.old ∷ []) (out.new ∷ answer.new ∷ []) }
{
    export::of_whole::tuppence_frame(record, store, side, samples, model, out, answer)
}

#[unsafe(no_mangle)]
pub extern "C" fn tuppence_take(
    record: &mut [u32],
    store: &mut [f32],
    side: u32,
    piece: &[f32],
    model: &[u8],
    out: &mut [f32],
    answers: &mut [f32],
) -> u32
    ensures { Worked
        (handed side «record».old
        (hosted_take BENCHES side «record».old store.old piece.now model.now
        (length out.old) (length answers.old)))
        (result, «record».new) store.new
        (out.old ∷ answers.old ∷ []) (out.new ∷ answers.new ∷ []) }
{
    export::of_whole::tuppence_take(record, store, side, piece, model, out, answers)
}
