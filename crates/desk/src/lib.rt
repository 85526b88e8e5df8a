// The desk: an opening, frame calls and pieces of dictation on one of sixteen sides of one lent store. What is refused
// changes nothing.
#![tactic(auto)]

ghost use Rattle.std.specs.Prelude.{◌≡◌, ◌≤◌, [], ◌∷◌, length, IfOk};
ghost use Rattle.rules.specs.Refusal.{told};
ghost use Rattle.desk.specs.Gate.{BENCHES, side_of, idle, way_number, all_zero, in_counts, resting, under_way};
ghost use Rattle.desk.specs.Gate.{in_pieces, in_range, is_due, gate};
ghost use Rattle.desk.specs.Desk.{opening, call1, call2, call2_own, call3, call4, first_half, second_half, piece};
ghost use Rattle.desk.specs.Desk.{resume, record_of, holding, next_index, next_hearing, next_heard, next_due};
ghost use Rattle.desk.specs.Desk.{advanced, numbered, carried, desk};
ghost use Rattle.model.specs.Reading.{model_read};
ghost use Rattle.desk.specs.Answer.{answer_of};
ghost use Rattle.desk.specs.Private.{Admits, told_of, told_fourth, told_first, after_second, told_piece, told_resume};
ghost use Rattle.desk.specs.Private.{opened_of};
ghost use Rattle.frame.specs.Answer.{as_reply, reply_told};
ghost use Rattle.frame.specs.Effect.{Worked};

use frame::{Cause, Hearing, Lag, Told, Way};
use model::{Misread, Model};
use rules::Refusal;

// A side, which is a bench: 0 to 15, the even ones left and the odd ones right.
#[derive(Clone, Copy)]
pub struct Bench(pub usize);

// A side's record, which goes in and comes back by value; closed, it is all zeros, and its way is what is asked. It is
// called `rec`: `record` is a word of the logic.
#[derive(Clone, Copy)]
pub struct Record {
    pub due: usize,
    pub hearing: Hearing,
    pub frame: u32,
    pub heard: u32,
    pub waiting: usize,
    pub piece: usize,
    pub progress: usize,
}

pub const BENCHES: usize = 16;

// The store's published length: a share for each bench.
pub const STORE: usize = BENCHES * frame::SHARE;

// From here an opening counts frames and heard frames.
const FIRST: u32 = 0;

// Behind the numbers of a frame's four calls.
pub const PIECE: usize = 5;

const RESUME: usize = 6;

// Left or right, 0 or 1: a bench's parity.
pub fn side_of(side: Bench) -> usize
    ensures { result ≡ side_of side.0 }
{
    side.0 % 2
}

// Every record is made here: one at which nothing waits and no piece is unfinished.
pub fn record_of(due: usize, hearing: Hearing, frame: u32, heard: u32) -> Record
    ensures { result ≡ record_of due hearing frame heard }
{
    Record {
        due,
        hearing,
        frame,
        heard,
        waiting: 0,
        piece: 0,
        progress: 0,
    }
}

// And one with another call due, and these.
pub fn holding(due: usize, rec: Record, waiting: usize, size: usize, progress: usize) -> Record
    ensures { result ≡ holding due rec waiting size progress }
{
    let hearing = rec.hearing;
    Record {
        due,
        hearing,
        frame: rec.frame,
        heard: rec.heard,
        waiting,
        piece: size,
        progress,
    }
}

// Whether nothing waits and no piece is unfinished.
#[tactic(auto, unfolding(crate::specs::Gate::idle))]
fn idle(rec: Record) -> bool
    ensures { result ≡ idle rec }
{
    rec.waiting == 0 && rec.piece == 0
}

// A way as a number.
// Stays: its enum is another crate's, and carries no numbers of its own; a match is as plain as a conversion.
pub fn way_number(way: Way) -> u32
    ensures { result ≡ way_number way }
{
    match way {
        Way::Own => 0,
        Way::Nnnoiseless => 1,
    }
}

// Whether everything in a closed record is 0.
#[tactic(auto, unfolding(crate::specs::Gate::all_zero))]
fn all_zero(rec: Record) -> bool
    ensures { result ≡ all_zero rec }
{
    rec.hearing.index == 0
        && rec.hearing.vad == 0
        && rec.hearing.noise == 0
        && rec.hearing.denoise == 0
        && rec.frame == 0
        && rec.heard == 0
        && idle(rec)
        && rec.progress == 0
        && way_number(rec.hearing.way) == 0
}

// Whether the GRU counts of an open record are in range.
#[tactic(auto, unfolding(crate::specs::Gate::in_counts))]
fn in_counts(rec: Record) -> bool
    ensures { result ≡ in_counts rec }
{
    1 <= rec.hearing.vad
        && rec.hearing.vad <= 127
        && 1 <= rec.hearing.noise
        && rec.hearing.noise <= 127
        && 1 <= rec.hearing.denoise
        && rec.hearing.denoise <= 127
}

// Whether a record with no unfinished piece is right so: where samples wait, call 1 is due.
#[tactic(auto, unfolding(crate::specs::Gate::resting))]
fn resting(rec: Record) -> bool
    ensures { result ≡ resting rec }
{
    rec.progress == 0 && (rec.waiting == 0 || rec.waiting <= 479 && rec.due == 1)
}

// Whether a record with an unfinished piece is right so.
#[tactic(auto, unfolding(crate::specs::Gate::under_way))]
fn under_way(rec: Record) -> bool
    ensures { result ≡ under_way rec }
{
    rec.piece <= 4096
        && rec.due == 3
        && rec.waiting == 0
        && 1 <= rec.progress
        && rec.progress <= rec.piece
}

#[tactic(auto, unfolding(crate::specs::Gate::in_pieces))]
fn in_pieces(rec: Record) -> bool
    ensures { result ≡ in_pieces rec }
{
    if rec.piece == 0 {
        resting(rec)
    } else {
        under_way(rec)
    }
}

// Whether a record is in range.
#[tactic(auto, unfolding(crate::specs::Gate::in_range))]
fn in_range(rec: Record) -> bool
    ensures { result ≡ in_range rec }
{
    if rec.due == 0 {
        return all_zero(rec);
    }
    rec.due <= 4 && rec.hearing.index <= 7 && in_counts(rec) && in_pieces(rec)
}

// Whether a call is due.
#[tactic(auto, unfolding(crate::specs::Gate::is_due))]
fn is_due(rec: Record, call: usize) -> bool
    ensures { result ≡ is_due rec call }
{
    match call {
        PIECE => rec.due == 1,
        RESUME => rec.piece != 0,
        _ => rec.due == call && idle(rec),
    }
}

// Refusals 1 to 4: `call` is the call asked for, and 0 an opening.
// Stays: the call's number in `gate`, `is_due`, `admit` and `next_due`, and the test for 0. A caller of `gate` may pass
// any number, and gate's definition speaks of all of them.
#[tactic(auto, unfolding(crate::specs::Gate::gate))]
pub fn gate(side: Bench, rec: Record, len: usize, call: usize) -> Result<(), Refusal>
    ensures { told result ≡ gate BENCHES side.0 rec len call }
{
    if side.0 >= BENCHES {
        return Err(Refusal::NoSuchSide);
    }
    if len != STORE {
        return Err(Refusal::OutOfRange);
    }
    if !in_range(rec) {
        return Err(Refusal::OutOfRange);
    }
    if call == 0 {
        return Ok(());
    }
    if rec.due == 0 {
        return Err(Refusal::Closed);
    }
    if !is_due(rec, call) {
        return Err(Refusal::NotDue);
    }
    Ok(())
}

// Where a side's share lies in the store, a frame's part in front.
#[derive(Clone, Copy)]
struct Share {
    // Where both begin.
    start: usize,
    // Where the frame's part ends.
    part: usize,
    // Where the share ends.
    end: usize,
}

// The side's share, for a call that the gate lets through.
#[tactic(auto, using(crate::proofs::Turned::through))]
fn admit(side: Bench, rec: Record, len: usize, call: usize) -> Result<Share, Refusal>
    ensures { Admits BENCHES side.0 rec len call result }
{
    gate(side, rec, len, call)?;
    let start = side.0 * frame::SHARE;
    Ok(Share {
        start,
        part: start + frame::PART,
        end: start + frame::SHARE,
    })
}

// The cepstral index after a call: a heard frame moves it on, round and round.
fn next_index(index: usize, told: Told) -> usize
    ensures { result ≡ next_index index (reply_told told) }
{
    match told {
        Told::Heard { .. } => if index < 7 { index + 1 } else { 0 },
        Told::Done | Told::Silent | Told::Numbered { .. } => index,
    }
}

// What a bench needs to hear, after a call: its index, and what its opening noted.
fn next_hearing(hearing: Hearing, told: Told) -> Hearing
    ensures { result ≡ next_hearing hearing (reply_told told) }
{
    Hearing {
        index: next_index(hearing.index, told),
        ..hearing
    }
}

// The number of heard frames after a call.
fn next_heard(number: u32, told: Told) -> u32
    ensures { result ≡ next_heard number (reply_told told) }
{
    match told {
        Told::Heard { .. } => frame::one_more(number),
        Told::Done | Told::Silent | Told::Numbered { .. } => number,
    }
}

// The call that is due after `call`.
fn next_due(call: usize) -> usize
    ensures { result ≡ next_due call }
{
    if call < 4 {
        return call + 1;
    }
    1
}

// The record after a call: the following call is due, and a heard frame is noted.
fn advanced(rec: Record, told: Told) -> Record
    ensures { result ≡ advanced rec (reply_told told) }
{
    let due = next_due(rec.due);
    let hearing = next_hearing(rec.hearing, told);
    let heard = next_heard(rec.heard, told);
    record_of(due, hearing, rec.frame, heard)
}

// The record after call 4, which ends a frame.
fn numbered(rec: Record) -> Record
    ensures { result ≡ numbered rec }
{
    let due = next_due(rec.due);
    let hearing = rec.hearing;
    record_of(due, hearing, frame::one_more(rec.frame), rec.heard)
}

// The answer to a frame call: if it is done, the record moves on.
fn told(rec: Record, outcome: Result<Told, Cause>) -> Result<(Told, Record), Cause>
    ensures { answer_of rec result ≡ told_of rec (as_reply outcome) }
{
    let told = outcome?;
    Ok((told, advanced(rec, told)))
}

// The answer to call 4: the frames and the heard frames, as they then stand.
fn told_fourth(rec: Record, outcome: Result<Told, Cause>) -> Result<(Told, Record), Cause>
    ensures { answer_of rec result ≡ told_fourth rec (as_reply outcome) }
{
    outcome?;
    let next = numbered(rec);
    let told = Told::Numbered {
        frames: next.frame,
        heard: rec.heard,
    };
    Ok((told, next))
}

// The answer to a first half, which is two calls.
fn told_first(rec: Record, outcome: Result<Told, Cause>) -> Result<(Told, Record), Cause>
    ensures { answer_of rec result ≡ told_first rec (as_reply outcome) }
{
    let told = outcome?;
    Ok((told, advanced(advanced(rec, told), told)))
}

// The answer to a second half: it tells what call 3 tells, and call 4's numbers stand in the record. A refusal is
// handed on, whatever its reason is.
pub fn told_second<E>(rec: Record, outcome: Result<Told, E>) -> Result<(Told, Record), E>
    ensures { result ≡ after_second rec outcome }
{
    let told = outcome?;
    Ok((told, numbered(advanced(rec, told))))
}

// The record with so many samples of a piece of this size in no frame yet: they wait, or a frame is under way.
#[tactic(auto, unfolding(crate::specs::Desk::carried))]
fn carried(rec: Record, rest: usize, size: usize, progress: usize) -> Record
    ensures { result ≡ carried rec rest size progress }
{
    if rest < 480 {
        holding(1, rec, rest, 0, 0)
    } else {
        holding(3, rec, 0, size, progress)
    }
}

// The answer to a piece of so many samples.
fn told_piece(
    rec: Record,
    size: usize,
    outcome: Result<Told, Cause>,
) -> Result<(Told, Record), Cause>
    requires { IfOk outcome (λ _. (rec.waiting ≤ 479) × (size ≤ 4096)) }
    ensures { answer_of rec result ≡ told_piece rec size (as_reply outcome) }
{
    let told = outcome?;
    Ok((
        told,
        carried(rec, rec.waiting + size, size, 480 - rec.waiting),
    ))
}

// The answer to a resume of a piece of so many samples.
fn told_resume(
    rec: Record,
    size: usize,
    outcome: Result<Told, Cause>,
) -> Result<(Told, Record), Cause>
    requires { IfOk outcome (λ _. (rec.progress ≤ size) × (size ≤ 4096)) }
    ensures { answer_of rec result ≡ told_resume rec size (as_reply outcome) }
{
    let told = outcome?;
    let next = numbered(advanced(rec, told));
    Ok((
        told,
        carried(next, size - rec.progress, size, rec.progress + 480),
    ))
}

// The answer to an opening, once the model is read.
fn opened(rec: Record, way: Way, read: Result<Model, Misread>) -> Result<(Told, Record), Cause>
    ensures { answer_of rec result ≡ opened_of rec way (model_read read) }
{
    let m = read?;
    let hearing = Hearing {
        index: 0,
        vad: m.vad_gru.neurons,
        noise: m.noise_gru.neurons,
        denoise: m.denoise_gru.neurons,
        way,
    };
    Ok((Told::Done, record_of(1, hearing, FIRST, FIRST)))
}

// An opening in a way: a model that reads wipes the side's share and makes call 1 due. It has no answer buffer.
pub fn open(
    side: Bench,
    rec: Record,
    store: &mut [f32],
    way: Way,
    model: &[u8],
) -> Result<(Told, Record), Cause>
    ensures { Worked
        (desk BENCHES side.0 rec store.old (opening way model.now))
        (answer_of rec result) store.new [] [] }
{
    let share = admit(side, rec, store.len(), 0)?;
    let answer = opened(rec, way, model::read(model))?;
    rules::clear(&mut store[share.start..share.end]);
    Ok(answer)
}

// Call 1: 480 samples in, 960 windowed numbers written.
pub fn call1(
    side: Bench,
    rec: Record,
    store: &mut [f32],
    samples: &[f32],
    window: &mut [f32],
) -> Result<(Told, Record), Cause>
    ensures { Worked
        (desk BENCHES side.0 rec store.old
        (call1 samples.now (length window.old)))
        (answer_of rec result) store.new (window.old ∷ []) (window.new ∷ []) }
{
    let share = admit(side, rec, store.len(), 1)?;
    let outcome = frame::call1(&mut store[share.start..share.part], samples, window);
    told(rec, outcome)
}

// Call 2: the first spectrum and a lag in, 960 windowed numbers and 22 sums written.
pub fn call2(
    side: Bench,
    rec: Record,
    store: &mut [f32],
    spectrum: &[f32],
    lag: Lag,
    window: &mut [f32],
    sums: &mut [f32],
) -> Result<(Told, Record), Cause>
    ensures { Worked
        (desk BENCHES side.0 rec store.old
        (call2 spectrum.now lag.0 (length window.old) (length sums.old)))
        (answer_of rec result) store.new (window.old ∷ sums.old ∷ [])
        (window.new ∷ sums.new ∷ []) }
{
    let share = admit(side, rec, store.len(), 2)?;
    let outcome = frame::call2(
        &mut store[share.start..share.part],
        spectrum,
        lag,
        window,
        sums,
    );
    told(rec, outcome)
}

// Call 2 with our own lag, found in the side's `input_mem`: the first spectrum in, 960 windowed numbers and 22 sums
// written.
pub fn call2_own(
    side: Bench,
    rec: Record,
    store: &mut [f32],
    spectrum: &[f32],
    window: &mut [f32],
    sums: &mut [f32],
) -> Result<(Told, Record), Cause>
    ensures { Worked
        (desk BENCHES side.0 rec store.old
        (call2_own spectrum.now (length window.old) (length sums.old)))
        (answer_of rec result) store.new (window.old ∷ sums.old ∷ [])
        (window.new ∷ sums.new ∷ []) }
{
    let share = admit(side, rec, store.len(), 2)?;
    let outcome = halves::call2_own(&mut store[share.start..share.part], spectrum, window, sums);
    told(rec, outcome)
}

// Call 3: the second spectrum, 22 logarithms and the model in, 961 numbers written; silent, or heard with voice and
// energy.
pub fn call3(
    side: Bench,
    rec: Record,
    store: &mut [f32],
    spectrum: &[f32],
    logs: &[f32],
    model: &[u8],
    out: &mut [f32],
) -> Result<(Told, Record), Cause>
    ensures { Worked
        (desk BENCHES side.0 rec store.old
        (call3 spectrum.now logs.now model.now (length out.old)))
        (answer_of rec result) store.new (out.old ∷ []) (out.new ∷ []) }
{
    let share = admit(side, rec, store.len(), 3)?;
    let outcome = frame::call3(
        &mut store[share.start..share.part],
        rec.hearing,
        spectrum,
        logs,
        model,
        out,
    );
    told(rec, outcome)
}

// Call 4: 960 inverse samples in, 480 numbers written; the frames and the heard frames so far.
pub fn call4(
    side: Bench,
    rec: Record,
    store: &mut [f32],
    inverse: &[f32],
    out: &mut [f32],
) -> Result<(Told, Record), Cause>
    ensures { Worked
        (desk BENCHES side.0 rec store.old
        (call4 inverse.now (length out.old)))
        (answer_of rec result) store.new (out.old ∷ []) (out.new ∷ []) }
{
    let share = admit(side, rec, store.len(), 4)?;
    let outcome = frame::call4(&mut store[share.start..share.part], inverse, out);
    told_fourth(rec, outcome)
}

// The first half of a frame, calls 1 and 2: 480 samples in, 22 sums written.
pub fn first_half(
    side: Bench,
    rec: Record,
    store: &mut [f32],
    samples: &[f32],
    sums: &mut [f32],
) -> Result<(Told, Record), Cause>
    ensures { Worked
        (desk BENCHES side.0 rec store.old
        (first_half samples.now (length sums.old)))
        (answer_of rec result) store.new (sums.old ∷ []) (sums.new ∷ []) }
{
    let share = admit(side, rec, store.len(), 1)?;
    let hearing = rec.hearing;
    let way = hearing.way;
    let outcome = halves::first_half(&mut store[share.start..share.part], way, samples, sums);
    told_first(rec, outcome)
}

// The second half of a frame, calls 3 and 4: 22 logarithms and the model in, 480 numbers written; silent, or heard with
// voice and energy.
pub fn second_half(
    side: Bench,
    rec: Record,
    store: &mut [f32],
    logs: &[f32],
    model: &[u8],
    out: &mut [f32],
) -> Result<(Told, Record), Cause>
    ensures { Worked
        (desk BENCHES side.0 rec store.old
        (second_half logs.now model.now (length out.old)))
        (answer_of rec result) store.new (out.old ∷ []) (out.new ∷ []) }
{
    let share = admit(side, rec, store.len(), 3)?;
    let outcome = halves::second_half(
        &mut store[share.start..share.part],
        rec.hearing,
        logs,
        model,
        out,
    );
    told_second(rec, outcome)
}

// A piece of dictation: 1 to 4,096 samples in. They wait, or 480 of those waiting and of them begin a frame, and 22
// sums are written.
pub fn piece(
    side: Bench,
    rec: Record,
    store: &mut [f32],
    samples: &[f32],
    out: &mut [f32],
    sums: &mut [f32],
) -> Result<(Told, Record), Cause>
    ensures { Worked
        (desk BENCHES side.0 rec store.old
        (piece samples.now (length out.old) (length sums.old)))
        (answer_of rec result) store.new (out.old ∷ sums.old ∷ []) (out.new ∷ sums.new ∷ []) }
{
    let share = admit(side, rec, store.len(), PIECE)?;
    let hearing = rec.hearing;
    let way = hearing.way;
    let outcome = pieces::piece(
        &mut store[share.start..share.end],
        way,
        rec.waiting,
        samples,
        out,
        sums,
    );
    told_piece(rec, samples.len(), outcome)
}

// A resume: the same piece, 22 logarithms and the model in. The frame under way is written to its place of the output;
// the rest of the samples waits, or 480 of them begin the next frame, and 22 sums are written.
pub fn resume(
    side: Bench,
    rec: Record,
    store: &mut [f32],
    samples: &[f32],
    logs: &[f32],
    model: &[u8],
    out: &mut [f32],
    sums: &mut [f32],
) -> Result<(Told, Record), Cause>
    ensures { Worked
        (desk BENCHES side.0 rec store.old
        (resume samples.now logs.now model.now (length out.old)
        (length sums.old)))
        (answer_of rec result) store.new (out.old ∷ sums.old ∷ []) (out.new ∷ sums.new ∷ []) }
{
    let share = admit(side, rec, store.len(), RESUME)?;
    let outcome = pieces::resume(
        &mut store[share.start..share.end],
        rec.hearing,
        rec.piece,
        rec.progress,
        samples,
        logs,
        model,
        out,
        sums,
    );
    told_resume(rec, samples.len(), outcome)
}
