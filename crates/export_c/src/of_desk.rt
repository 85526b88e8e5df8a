// The functions of crates/export/src/of_desk.rt for C: the same names and contracts.
// tools/make_export_c.sh makes this file.
ghost use Rattle.std.specs.Prelude.{◌≡◌, [], ◌∷◌, length};
ghost use Rattle.frame.specs.declared.Way.TheVariants.{Own, Nnnoiseless};
ghost use Rattle.desk.specs.Gate.{BENCHES, side_of};
ghost use Rattle.desk.specs.Desk.{opening, call1, call2, call2_own, call3, call4, first_half};
ghost use Rattle.desk.specs.Desk.{second_half, piece, resume};
ghost use Rattle.frame.specs.Effect.{Worked};
ghost use Rattle.desk.specs.Surface.{out_of, hosted, handed};

#[unsafe(no_mangle)]
pub extern "C" fn tuppence_side_of(bench: u32) -> u32
    ensures { result ≡ side_of bench }
{
    export::of_desk::tuppence_side_of(bench)
}

#[unsafe(no_mangle)]
pub extern "C" fn tuppence_open(
    record: &mut [u32],
    store: &mut [f32],
    side: u32,
    model: &[u8],
) -> u32
    ensures { Worked
        (handed side «record».old
        (hosted BENCHES side «record».old store.old (opening Own model.now)))
        (result, «record».new) store.new [] [] }
{
    export::of_desk::tuppence_open(record, store, side, model)
}

#[unsafe(no_mangle)]
pub extern "C" fn tuppence_open_crate(
    record: &mut [u32],
    store: &mut [f32],
    side: u32,
    model: &[u8],
) -> u32
    ensures { Worked
        (handed side «record».old
        (hosted BENCHES side «record».old store.old (opening Nnnoiseless model.now)))
        (result, «record».new) store.new [] [] }
{
    export::of_desk::tuppence_open_crate(record, store, side, model)
}

#[unsafe(no_mangle)]
pub extern "C" fn tuppence_call1(
    record: &mut [u32],
    store: &mut [f32],
    side: u32,
    samples: &[f32],
    window: &mut [f32],
) -> u32
    ensures { Worked
        (handed side «record».old
        (hosted BENCHES side «record».old store.old
        (call1 samples.now (length window.old))))
        (result, «record».new) store.new (window.old ∷ []) (window.new ∷ []) }
{
    export::of_desk::tuppence_call1(record, store, side, samples, window)
}

#[unsafe(no_mangle)]
pub extern "C" fn tuppence_call2(
    record: &mut [u32],
    store: &mut [f32],
    side: u32,
    spectrum: &[f32],
    lag: u32,
    window: &mut [f32],
    sums: &mut [f32],
) -> u32
    ensures { Worked
        (handed side «record».old
        (hosted BENCHES side «record».old store.old
        (call2 spectrum.now lag (length window.old) (length sums.old))))
        (result, «record».new) store.new
        (window.old ∷ sums.old ∷ []) (window.new ∷ sums.new ∷ []) }
{
    export::of_desk::tuppence_call2(record, store, side, spectrum, lag, window, sums)
}

#[unsafe(no_mangle)]
pub extern "C" fn tuppence_call2_own(
    record: &mut [u32],
    store: &mut [f32],
    side: u32,
    spectrum: &[f32],
    window: &mut [f32],
    sums: &mut [f32],
) -> u32
    ensures { Worked
        (handed side «record».old
        (hosted BENCHES side «record».old store.old
        (call2_own spectrum.now (length window.old) (length sums.old))))
        (result, «record».new) store.new
        (window.old ∷ sums.old ∷ []) (window.new ∷ sums.new ∷ []) }
{
    export::of_desk::tuppence_call2_own(record, store, side, spectrum, window, sums)
}

#[unsafe(no_mangle)]
pub extern "C" fn tuppence_call3(
    record: &mut [u32],
    store: &mut [f32],
    side: u32,
    spectrum: &[f32],
    logs: &[f32],
    model: &[u8],
    out: &mut [f32],
    answer: &mut [f32],
) -> u32
    ensures { Worked
        (handed side «record».old
        (hosted BENCHES side «record».old store.old
        (call3 spectrum.now logs.now model.now
        (out_of (length answer.old) (length out.old)))))
        (result, «record».new) store.new
        (out.old ∷ answer.old ∷ []) (out.new ∷ answer.new ∷ []) }
{
    export::of_desk::tuppence_call3(record, store, side, spectrum, logs, model, out, answer)
}

#[unsafe(no_mangle)]
pub extern "C" fn tuppence_call4(
    record: &mut [u32],
    store: &mut [f32],
    side: u32,
    inverse: &[f32],
    out: &mut [f32],
) -> u32
    ensures { Worked
        (handed side «record».old
        (hosted BENCHES side «record».old store.old
        (call4 inverse.now (length out.old))))
        (result, «record».new) store.new (out.old ∷ []) (out.new ∷ []) }
{
    export::of_desk::tuppence_call4(record, store, side, inverse, out)
}

#[unsafe(no_mangle)]
pub extern "C" fn tuppence_first_half(
    record: &mut [u32],
    store: &mut [f32],
    side: u32,
    samples: &[f32],
    sums: &mut [f32],
) -> u32
    ensures { Worked
        (handed side «record».old
        (hosted BENCHES side «record».old store.old
        (first_half samples.now (length sums.old))))
        (result, «record».new) store.new (sums.old ∷ []) (sums.new ∷ []) }
{
    export::of_desk::tuppence_first_half(record, store, side, samples, sums)
}

#[unsafe(no_mangle)]
pub extern "C" fn tuppence_second_half(
    record: &mut [u32],
    store: &mut [f32],
    side: u32,
    logs: &[f32],
    model: &[u8],
    out: &mut [f32],
    answer: &mut [f32],
) -> u32
    ensures { Worked
        (handed side «record».old
        (hosted BENCHES side «record».old store.old
        (second_half logs.now model.now
        (out_of (length answer.old) (length out.old)))))
        (result, «record».new) store.new
        (out.old ∷ answer.old ∷ []) (out.new ∷ answer.new ∷ []) }
{
    export::of_desk::tuppence_second_half(record, store, side, logs, model, out, answer)
}

#[unsafe(no_mangle)]
pub extern "C" fn tuppence_piece(
    record: &mut [u32],
    store: &mut [f32],
    side: u32,
    samples: &[f32],
    out: &mut [f32],
    sums: &mut [f32],
) -> u32
    ensures { Worked
        (handed side «record».old
        (hosted BENCHES side «record».old store.old
        (piece samples.now (length out.old) (length sums.old))))
        (result, «record».new) store.new
        (out.old ∷ sums.old ∷ []) (out.new ∷ sums.new ∷ []) }
{
    export::of_desk::tuppence_piece(record, store, side, samples, out, sums)
}

#[unsafe(no_mangle)]
pub extern "C" fn tuppence_resume(
    record: &mut [u32],
    store: &mut [f32],
    side: u32,
    samples: &[f32],
    logs: &[f32],
    model: &[u8],
    out: &mut [f32],
    sums: &mut [f32],
    answer: &mut [f32],
) -> u32
    ensures { Worked
        (handed side «record».old
        (hosted BENCHES side «record».old store.old
        (resume samples.now logs.now model.now
        (out_of (length answer.old) (length out.old)) (length sums.old))))
        (result, «record».new) store.new
        (out.old ∷ sums.old ∷ answer.old ∷ [])
        (out.new ∷ sums.new ∷ answer.new ∷ []) }
{
    export::of_desk::tuppence_resume(record, store, side, samples, logs, model, out, sums, answer)
}
