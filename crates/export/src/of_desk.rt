// desk: opening a bench, the four calls of a frame, and pieces of dictation. `side` is the bench's number, 0 to 15;
// even benches are left, odd ones right. `record` is the bench's record, twelve numbers: the call that is due, the
// cepstral index, the three GRU sizes, the frames since the opening, the heard frames, the samples that wait, the
// length of an unfinished piece and its progress, the way (0: our own lag and plain sums; 1: nnnoiseless's lag and
// fast transforms), and the bench's number plus 1. A closed record is all zeros. `store` has TUPPENCE_STORE numbers
// and serves all benches. `model` is the contents of a model file. `answer` is what call 3 answers, as three
// numbers: heard (1 or 0), voice, energy.
// Each call returns 0 if it is done, or the first of these refusals that applies: 1 there is no such bench; 2
// `store` or `record` has a wrong length, or the record is out of range or another bench's; 3 the bench is closed; 4
// another call is due; 5 another slice has a wrong length; 6 the lag is above 768; 7 the model does not read (7 +
// 256 times the model's refusal + 65,536 times the layer); 8 the model has other GRU sizes than at the opening; 9 a
// sample is not from -32,768 to 32,767.
ghost use Rattle.std.specs.Prelude.{◌≡◌, true, cond, [], ◌∷◌, length, ◌<◌};
ghost use Rattle.frame.specs.Answer.{reply_refused};
ghost use Rattle.frame.specs.Reply.{passed};
ghost use Rattle.frame.specs.declared.Way.TheVariants.{Own, Nnnoiseless};
ghost use Rattle.desk.specs.Answer.{answer_of};
ghost use Rattle.desk.specs.Gate.{BENCHES, side_of};
ghost use Rattle.desk.specs.Desk.{record_of, no_hearing, opening, call1, call2, call2_own, call3, call4, first_half};
ghost use Rattle.desk.specs.Desk.{second_half, piece, resume};
ghost use Rattle.frame.specs.Effect.{Worked};
ghost use Rattle.desk.specs.Surface.{RECORD, bench_number, numbers_of, way_in, record_in, reply_number, handed_back};
ghost use Rattle.desk.specs.Surface.{heard_of, out_of, hosted, handed};
ghost use Rattle.desk.proofs.Ranged.{Bounded};
ghost use Rattle.export.specs.Private.{reply_in, HandsBack};

use desk::{Bench, Record};
use frame::{Cause, Hearing, Lag, Told, Way};
use whole::Three;

// The length of a record.
const RECORD: usize = 12;

// The way that a number means.
#[tactic(auto, using(rules::proofs::Tests::tests))]
fn way_in(number: u32) -> Way
    ensures { result ≡ way_in number }
{
    if number == 0 {
        Way::Own
    } else {
        Way::Nnnoiseless
    }
}

// A record that is out of range, so that every call refuses it.
fn no_record() -> Record
    ensures { result ≡ record_of 5 no_hearing 0 0 }
{
    let hearing = Hearing {
        index: 0,
        vad: 0,
        noise: 0,
        denoise: 0,
        way: Way::Own,
    };
    desk::record_of(5, hearing, 0, 0)
}

// The last number of a record: the bench's number plus 1 if the record is open, and 0 if it is closed.
#[tactic(auto, using(rules::proofs::Tests::tests))]
fn bench_number(side: u32, due: usize) -> usize
    ensures { result ≡ bench_number side due }
{
    if due == 0 { 0 } else { side as usize + 1 }
}

// A bench's record from its numbers. If there are not twelve, or one of them is no way, or they are another bench's,
// the record is out of range.
#[tactic(auto, using(rules::proofs::Tests::tests), unfolding(desk::specs::Surface::record_in))]
pub(crate) fn record_in(side: u32, record: &[u32]) -> Record
    ensures { result ≡ record_in side «record».now }
{
    let Some(numbers) = record.as_array::<RECORD>() else {
        return no_record();
    };
    let [
        due,
        index,
        vad,
        noise,
        denoise,
        frame,
        heard,
        waiting,
        piece,
        progress,
        way,
        seat,
    ] = *numbers;
    if 1 < way || seat as usize != bench_number(side, due as usize) {
        return no_record();
    }
    let hearing = Hearing {
        index: index as usize,
        vad: vad as usize,
        noise: noise as usize,
        denoise: denoise as usize,
        way: way_in(way),
    };
    desk::holding(
        due as usize,
        desk::record_of(0, hearing, frame, heard),
        waiting as usize,
        piece as usize,
        progress as usize,
    )
}

// A bench's record as numbers.
fn numbers_of(side: u32, rec: Record) -> [u32; RECORD]
    requires { Bounded rec × (side < BENCHES) }
    ensures { result ≡ numbers_of side rec }
{
    let hearing = rec.hearing;
    [
        rec.due as u32,
        hearing.index as u32,
        hearing.vad as u32,
        hearing.noise as u32,
        hearing.denoise as u32,
        rec.frame,
        rec.heard,
        rec.waiting as u32,
        rec.piece as u32,
        rec.progress as u32,
        desk::way_number(hearing.way),
        bench_number(side, rec.due) as u32,
    ]
}

// The number of what refuses a call.
fn number_of(cause: Cause) -> u32
    ensures { result ≡ reply_number (reply_refused cause) }
{
    match cause {
        Cause::Plain(refusal) => refusal.number(),
        Cause::Model(misread) => crate::of_model::seven(misread),
    }
}

// Writes back the record of a call that is done, and returns 0 or the number of the refusal. A refused call leaves the
// record.
pub(crate) fn hand_back(side: u32, record: &mut [u32], given: Result<(Told, Record), Cause>) -> u32
    requires { HandsBack side «record».old (answer_of (record_in side «record».old) given) }
    ensures { (result ≡ reply_number (answer_of (record_in side «record».old) given).reply)
        × («record».new ≡ handed_back side (answer_of (record_in side «record».old) given) «record».old) }
{
    match given {
        Ok((_, rec)) => {
            record.copy_from_slice(&numbers_of(side, rec));
            0
        }
        Err(cause) => number_of(cause),
    }
}

// The side of a bench: 0 (left) for an even number, 1 (right) for an odd one.
#[unsafe(no_mangle)]
pub extern "C" fn tuppence_side_of(bench: u32) -> u32
    ensures { result ≡ side_of bench }
{
    desk::side_of(Bench(bench as usize)) as u32
}

// Opens a bench, at any time. Its share is wiped, and call 1 is due. It finds the lag by our own rule and uses plain
// sums.
#[unsafe(no_mangle)]
pub extern "C" fn tuppence_open(
    record: &mut [u32],
    store: &mut [f32],
    side: u32,
    model: &[u8],
) -> u32
    ensures { Worked
        (handed side «record».old
        (hosted BENCHES side «record».old store.old (opening Own model.now)))
        (result, «record».new) store.new [] [] }
{
    let given = desk::open(
        Bench(side as usize),
        record_in(side, record),
        store,
        Way::Own,
        model,
    );
    hand_back(side, record, given)
}

// Opens a bench in nnnoiseless's way: its lag and fast transforms, for halves, pieces, frames, takes and feeds until
// the next opening.
#[unsafe(no_mangle)]
pub extern "C" fn tuppence_open_crate(
    record: &mut [u32],
    store: &mut [f32],
    side: u32,
    model: &[u8],
) -> u32
    ensures { Worked
        (handed side «record».old
        (hosted BENCHES side «record».old store.old (opening Nnnoiseless model.now)))
        (result, «record».new) store.new [] [] }
{
    let given = desk::open(
        Bench(side as usize),
        record_in(side, record),
        store,
        Way::Nnnoiseless,
        model,
    );
    hand_back(side, record, given)
}

// Call 1. `samples` are the 480 of a frame. `window` gets 960 windowed numbers, which the caller transforms.
#[unsafe(no_mangle)]
pub extern "C" fn tuppence_call1(
    record: &mut [u32],
    store: &mut [f32],
    side: u32,
    samples: &[f32],
    window: &mut [f32],
) -> u32
    ensures { Worked
        (handed side «record».old
        (hosted BENCHES side «record».old store.old
        (call1 samples.now (length window.old))))
        (result, «record».new) store.new (window.old ∷ []) (window.new ∷ []) }
{
    let given = desk::call1(
        Bench(side as usize),
        record_in(side, record),
        store,
        samples,
        window,
    );
    hand_back(side, record, given)
}

// Call 2. `spectrum` is the transform of call 1's window, 961 numbers, and `lag` is at most 768. `window` gets 960
// numbers, which the caller transforms. `sums` gets 22 numbers; call 3 is lent their logarithms.
#[unsafe(no_mangle)]
pub extern "C" fn tuppence_call2(
    record: &mut [u32],
    store: &mut [f32],
    side: u32,
    spectrum: &[f32],
    lag: u32,
    window: &mut [f32],
    sums: &mut [f32],
) -> u32
    ensures { Worked
        (handed side «record».old
        (hosted BENCHES side «record».old store.old
        (call2 spectrum.now lag (length window.old) (length sums.old))))
        (result, «record».new) store.new
        (window.old ∷ sums.old ∷ []) (window.new ∷ sums.new ∷ []) }
{
    let given = desk::call2(
        Bench(side as usize),
        record_in(side, record),
        store,
        spectrum,
        Lag(lag as usize),
        window,
        sums,
    );
    hand_back(side, record, given)
}

// Call 2 with our own lag. `spectrum`, `window` and `sums` are those of call 2.
#[unsafe(no_mangle)]
pub extern "C" fn tuppence_call2_own(
    record: &mut [u32],
    store: &mut [f32],
    side: u32,
    spectrum: &[f32],
    window: &mut [f32],
    sums: &mut [f32],
) -> u32
    ensures { Worked
        (handed side «record».old
        (hosted BENCHES side «record».old store.old
        (call2_own spectrum.now (length window.old) (length sums.old))))
        (result, «record».new) store.new
        (window.old ∷ sums.old ∷ []) (window.new ∷ sums.new ∷ []) }
{
    let given = desk::call2_own(
        Bench(side as usize),
        record_in(side, record),
        store,
        spectrum,
        window,
        sums,
    );
    hand_back(side, record, given)
}

// Writes the answer of call 3, of the second half or of a resume as three numbers, if the call is done.
pub(crate) fn tell(answer: &mut [f32], given: Result<(Told, Record), Cause>)
    requires { passed (reply_in given) ≡ true → length answer.old ≡ 3 }
    ensures { answer.new ≡ cond (passed (reply_in given)) (heard_of (reply_in given)) answer.old }
{
    if let Ok((told, _)) = given {
        let Three {
            heard,
            voice,
            energy,
        } = whole::three_of::<Cause>(Ok(told));
        answer.copy_from_slice(&[heard, voice, energy]);
    }
}

// The places of `out` that a call is lent. If `answer` has not three numbers, it is lent none, so that it refuses
// with 5.
#[tactic(auto, using(rules::proofs::Tests::tests))]
pub(crate) fn places(answer: usize, out: usize) -> usize
    ensures { result ≡ out_of answer out }
{
    if answer == 3 { out } else { 0 }
}

// Call 3. `spectrum` is the transform of call 2's window, 961 numbers, and `logs` are the 22 logarithms of the sums.
// `out` gets the 961 numbers of the spectrum to be transformed back, and `answer` gets three numbers.
#[unsafe(no_mangle)]
pub extern "C" fn tuppence_call3(
    record: &mut [u32],
    store: &mut [f32],
    side: u32,
    spectrum: &[f32],
    logs: &[f32],
    model: &[u8],
    out: &mut [f32],
    answer: &mut [f32],
) -> u32
    ensures { Worked
        (handed side «record».old
        (hosted BENCHES side «record».old store.old
        (call3 spectrum.now logs.now model.now
        (out_of (length answer.old) (length out.old)))))
        (result, «record».new) store.new
        (out.old ∷ answer.old ∷ []) (out.new ∷ answer.new ∷ []) }
{
    let end = places(answer.len(), out.len());
    let given = desk::call3(
        Bench(side as usize),
        record_in(side, record),
        store,
        spectrum,
        logs,
        model,
        &mut out[0..end],
    );
    tell(answer, given);
    hand_back(side, record, given)
}

// Call 4. `inverse` are the 960 numbers of the inverse transform. `out` gets the 480 samples of the frame.
#[unsafe(no_mangle)]
pub extern "C" fn tuppence_call4(
    record: &mut [u32],
    store: &mut [f32],
    side: u32,
    inverse: &[f32],
    out: &mut [f32],
) -> u32
    ensures { Worked
        (handed side «record».old
        (hosted BENCHES side «record».old store.old
        (call4 inverse.now (length out.old))))
        (result, «record».new) store.new (out.old ∷ []) (out.new ∷ []) }
{
    let given = desk::call4(
        Bench(side as usize),
        record_in(side, record),
        store,
        inverse,
        out,
    );
    hand_back(side, record, given)
}

// The first half of a frame: calls 1 and 2, with the transforms and the lag of the bench's way. `samples` are the
// 480 of a frame. `sums` gets 22 numbers.
#[unsafe(no_mangle)]
pub extern "C" fn tuppence_first_half(
    record: &mut [u32],
    store: &mut [f32],
    side: u32,
    samples: &[f32],
    sums: &mut [f32],
) -> u32
    ensures { Worked
        (handed side «record».old
        (hosted BENCHES side «record».old store.old
        (first_half samples.now (length sums.old))))
        (result, «record».new) store.new (sums.old ∷ []) (sums.new ∷ []) }
{
    let given = desk::first_half(
        Bench(side as usize),
        record_in(side, record),
        store,
        samples,
        sums,
    );
    hand_back(side, record, given)
}

// The second half of a frame: calls 3 and 4. `logs` are the 22 logarithms of the sums. `out` gets 480 samples, and
// `answer` three numbers.
#[unsafe(no_mangle)]
pub extern "C" fn tuppence_second_half(
    record: &mut [u32],
    store: &mut [f32],
    side: u32,
    logs: &[f32],
    model: &[u8],
    out: &mut [f32],
    answer: &mut [f32],
) -> u32
    ensures { Worked
        (handed side «record».old
        (hosted BENCHES side «record».old store.old
        (second_half logs.now model.now
        (out_of (length answer.old) (length out.old)))))
        (result, «record».new) store.new
        (out.old ∷ answer.old ∷ []) (out.new ∷ answer.new ∷ []) }
{
    let end = places(answer.len(), out.len());
    let given = desk::second_half(
        Bench(side as usize),
        record_in(side, record),
        store,
        logs,
        model,
        &mut out[0..end],
    );
    tell(answer, given);
    hand_back(side, record, given)
}

// Begins a piece of 1 to 4,096 `samples`. `out` has room for 480 samples of each frame that the piece completes.
// `sums` has room for 22: it gets those of the first frame, if there is one, and the piece then waits to be resumed.
#[unsafe(no_mangle)]
pub extern "C" fn tuppence_piece(
    record: &mut [u32],
    store: &mut [f32],
    side: u32,
    samples: &[f32],
    out: &mut [f32],
    sums: &mut [f32],
) -> u32
    ensures { Worked
        (handed side «record».old
        (hosted BENCHES side «record».old store.old
        (piece samples.now (length out.old) (length sums.old))))
        (result, «record».new) store.new
        (out.old ∷ sums.old ∷ []) (out.new ∷ sums.new ∷ []) }
{
    let given = desk::piece(
        Bench(side as usize),
        record_in(side, record),
        store,
        samples,
        out,
        sums,
    );
    hand_back(side, record, given)
}

// Goes on with a piece: the same `samples` and the same `out`, and the 22 `logs` of the sums. `sums` gets those of
// the next frame, if there is one, and `answer` the three numbers of the frame that is now done.
#[unsafe(no_mangle)]
pub extern "C" fn tuppence_resume(
    record: &mut [u32],
    store: &mut [f32],
    side: u32,
    samples: &[f32],
    logs: &[f32],
    model: &[u8],
    out: &mut [f32],
    sums: &mut [f32],
    answer: &mut [f32],
) -> u32
    ensures { Worked
        (handed side «record».old
        (hosted BENCHES side «record».old store.old
        (resume samples.now logs.now model.now
        (out_of (length answer.old) (length out.old)) (length sums.old))))
        (result, «record».new) store.new
        (out.old ∷ sums.old ∷ answer.old ∷ [])
        (out.new ∷ sums.new ∷ answer.new ∷ []) }
{
    let end = places(answer.len(), out.len());
    let given = desk::resume(
        Bench(side as usize),
        record_in(side, record),
        store,
        samples,
        logs,
        model,
        &mut out[0..end],
        sums,
    );
    tell(answer, given);
    hand_back(side, record, given)
}
