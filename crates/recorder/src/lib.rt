// A recording while it is being made. For each feed of a bench the recorder says which of its bytes belong to the
// recording, and it carries on what the head, the seal and the trailer say at the end. A host holds it as eight
// numbers.
// Stays: a host's slices, whose lengths the calls test, and where the audio is as two numbers: the C interface.
#![tactic(auto)]

mod records;

ghost use Rattle.std.specs.Prelude.{◌≡◌, ◌%◌, ◌≤◌, ◌^◌, ◌<◌, length};
ghost use Rattle.rules.specs.Leaf.{◌leaving◌};
ghost use Rattle.rules.specs.Refusal.{told};
ghost use Rattle.rules.specs.Refusals.{refusing};
ghost use Rattle.recorder.specs.Recorder.{beginning, skip_of, room_of, belonging, start_of, too_long, more_rows};
ghost use Rattle.recorder.specs.Recorder.{closing_of};
ghost use Rattle.recorder.specs.Recorder.{close_rows, next_first, following, next_rows};
ghost use Rattle.recorder.specs.Numbers.{recorder_in, recorder_numbers, begun_laid, more_laid, closing_laid, next_laid};
ghost use Rattle.recorder.specs.Numbers.{finish_laid};
ghost use Rattle.recorder.specs.Private.{with_audio, Within};

use recording::Front;
use recording::numbers::{side_at, word};
use rules::Refusal;
use sides::Side;

// A recording while it is being made.
#[derive(Clone, Copy)]
pub struct Recorder {
    // What its front says: the side, when it began, and the number of its first frame.
    pub front: Front,
    // How many samples of the stream were taken in.
    pub taken: u32,
    // How many bytes of audio it has so far, and their checksum.
    pub size: u32,
    pub crc: u32,
    // How many records it has so far, and the sum of their bytes.
    pub count: u32,
    pub sum: u32,
}

// ---- in numbers

#[tactic(auto, unfolding(crate::specs::Numbers::recorder_in))]
fn recorder_in(numbers: &[u64; 8]) -> Recorder
    ensures { result ≡ recorder_in numbers.now }
{
    let [side, began, first, taken, size, crc, count, sum] = *numbers;
    Recorder {
        front: Front {
            side: side_at(side),
            began,
            first: word(first),
        },
        taken: word(taken),
        size: word(size),
        crc: word(crc),
        count: word(count),
        sum: word(sum),
    }
}

fn numbers_of(recorder: Recorder) -> [u64; 8]
    ensures { result ≡ recorder_numbers recorder }
{
    let front = recorder.front;
    [
        front.side.number() as u64,
        front.began,
        front.first as u64,
        recorder.taken as u64,
        recorder.size as u64,
        recorder.crc as u64,
        recorder.count as u64,
        recorder.sum as u64,
    ]
}

// ---- begin

fn begun(front: Front) -> Recorder
    ensures { result ≡ beginning front }
{
    Recorder {
        front,
        taken: 0,
        size: 0,
        crc: 0,
        count: 0,
        sum: 0,
    }
}

// A recording of a side begins. Another length than eight is refused, and so is a number that means no side.
#[tactic(auto, unfolding(crate::specs::Numbers::begun_laid))]
pub fn begin(numbers: &mut [u64], side: u32, began: u64, first: u32) -> Result<(), Refusal>
    ensures { (told result leaving numbers.new) ≡ begun_laid side began first numbers.old }
{
    if numbers.len() != 8 {
        return Err(Refusal::WrongLength);
    }
    let Some(side) = Side::of_number(side) else {
        return Err(Refusal::SealSide);
    };
    let recorder = begun(Front { side, began, first });
    numbers.copy_from_slice(&numbers_of(recorder));
    Ok(())
}

// ---- what a feed gave

// How many bytes in front do not belong to the recording.
fn skip_of(recorder: Recorder) -> usize
    ensures { result ≡ skip_of recorder }
{
    if recorder.front.first as u64 + recorder.count as u64 == 0 {
        960
    } else {
        0
    }
}

// How many bytes of audio there still can be.
fn room_of(recorder: Recorder, taken: u32) -> usize
    ensures { result ≡ room_of recorder taken }
{
    (2 * (recorder.taken as usize + taken as usize)).saturating_sub(recorder.size as usize)
}

// Where the bytes begin that belong to the recording, of so many.
fn start_of(recorder: Recorder, bytes: usize) -> usize
    ensures { (result ≡ start_of recorder bytes) × (result ≤ bytes) }
{
    skip_of(recorder).min(bytes)
}

// The bytes that belong to the recording.
#[tactic(auto, using(crate::proofs::Answers::part_at))]
fn belonging(recorder: Recorder, taken: u32, cleaned: &[u8]) -> &[u8]
    ensures { result.now ≡ belonging recorder taken cleaned.now }
{
    let rest = &cleaned[start_of(recorder, cleaned.len())..];
    &rest[..room_of(recorder, taken).min(rest.len())]
}

// Whether the recording would be longer than a recording can be.
fn is_too_long(recorder: Recorder, taken: u32, frames: usize) -> bool
    ensures { result ≡ too_long recorder taken frames }
{
    2129735520 < recorder.taken as u64 + taken as u64
        || 4436950 < frames
        || 4436950 < recorder.count as usize + frames
}

// What refuses a feed's bytes and records.
fn tried(recorder: Recorder, taken: u32, cleaned: &[u8], records: &[u8]) -> Result<(), Refusal>
    ensures { told result ≡ refusing (more_rows recorder taken cleaned.now records.now) (λ n. n) 0 }
{
    let frames = records.len() / 8;
    if records.len() % 8 != 0 || cleaned.len() % 960 != 0 || cleaned.len() / 960 != frames {
        return Err(Refusal::WrongLength);
    }
    if is_too_long(recorder, taken, frames) {
        return Err(Refusal::RecorderTooLong);
    }
    let front = recorder.front;
    let number = front.first as u64 + recorder.count as u64;
    if !records::are_records(records, front.side.number(), number, frames) {
        return Err(Refusal::RecorderRecords);
    }
    Ok(())
}

// With these bytes of audio, and these records.
fn recorded(recorder: Recorder, taken: u32, audio: &[u8], records: &[u8]) -> Recorder
    requires { Within recorder taken (length audio.now) (length records.now) }
    ensures { result ≡ with_audio recorder taken audio.now records.now }
{
    Recorder {
        front: recorder.front,
        taken: recorder.taken + taken,
        size: (recorder.size as usize + audio.len()) as u32,
        crc: checksum::crc32(recorder.crc, audio),
        count: (recorder.count as usize + records.len() / 8) as u32,
        sum: recording::sum_with(recorder.sum, records),
    }
}

// What one feed gave: how many samples of the stream it took in (0 of silence), its bytes and its records. `part` then
// says which of the bytes belong to the recording: where they begin, and how many they are.
#[tactic(auto, unfolding(crate::specs::Numbers::more_laid))]
pub fn more(
    numbers: &mut [u64],
    part: &mut [u64],
    taken: u32,
    cleaned: &[u8],
    records: &[u8],
) -> Result<(), Refusal>
    ensures { (told result leaving numbers.new leaving part.new)
        ≡ more_laid taken cleaned.now records.now numbers.old part.old }
{
    let (Some(lent), 2) = (numbers.as_array(), part.len()) else {
        return Err(Refusal::WrongLength);
    };
    let recorder = recorder_in(lent);
    tried(recorder, taken, cleaned, records)?;
    let start = start_of(recorder, cleaned.len());
    let audio = belonging(recorder, taken, cleaned);
    numbers.copy_from_slice(&numbers_of(recorded(recorder, taken, audio, records)));
    part.copy_from_slice(&[start as u64, audio.len() as u64]);
    Ok(())
}

// ---- its end

fn closing_of(recorder: Recorder) -> u64
    ensures { result ≡ closing_of recorder }
{
    match recorder.taken as u64 {
        0 => 0,
        taken => 480 * ((taken + 479) / 480 + 1) - taken,
    }
}

// How many samples of silence the bench must still be fed, so that all that was taken in comes out.
#[tactic(auto, unfolding(crate::specs::Numbers::closing_laid))]
pub fn closing(silence: &mut [u64], numbers: &[u64]) -> Result<(), Refusal>
    ensures { (told result leaving silence.new) ≡ closing_laid numbers.now silence.old }
{
    let (1, Some(numbers)) = (silence.len(), numbers.as_array()) else {
        return Err(Refusal::WrongLength);
    };
    silence.copy_from_slice(&[closing_of(recorder_in(numbers))]);
    Ok(())
}

// What refuses to close it.
fn closes(recorder: Recorder) -> Result<(), Refusal>
    ensures { told result ≡ refusing (close_rows recorder) (λ n. n) 0 }
{
    if !recording::is_size(recorder.size) {
        return Err(Refusal::RecorderSize);
    }
    if recorder.count as u64 != recording::frames_of(recorder.front.first, recorder.size) {
        return Err(Refusal::RecorderFrames);
    }
    Ok(())
}

fn next_first(recorder: Recorder) -> u32
    ensures { result ≡ next_first recorder }
{
    recorder.front.first.wrapping_add(recorder.count)
}

// What refuses to go on in a next recording.
fn goes_on(recorder: Recorder) -> Result<(), Refusal>
    ensures { told result ≡ refusing (next_rows recorder) (λ n. n) 0 }
{
    closes(recorder)?;
    if recorder.size % 960 != 0 || next_first(recorder) == 0 {
        return Err(Refusal::RecorderNoCut);
    }
    Ok(())
}

#[tactic(auto, unfolding(crate::specs::Recorder::following))]
fn following(recorder: Recorder, began: u64) -> Recorder
    ensures { result ≡ following recorder began }
{
    let front = Front {
        side: recorder.front.side,
        began,
        first: next_first(recorder),
    };
    Recorder {
        taken: recorder.taken.saturating_sub(recorder.size / 2),
        ..begun(front)
    }
}

// The recording ends after a frame, and the bench goes on in the next one.
#[tactic(auto, unfolding(crate::specs::Numbers::next_laid))]
pub fn next(numbers: &mut [u64], began: u64) -> Result<(), Refusal>
    ensures { (told result leaving numbers.new) ≡ next_laid began numbers.old }
{
    let Some(lent) = numbers.as_array() else {
        return Err(Refusal::WrongLength);
    };
    let recorder = recorder_in(lent);
    goes_on(recorder)?;
    numbers.copy_from_slice(&numbers_of(following(recorder, began)));
    Ok(())
}

// The end of the recording: its head of 76 bytes, the 32 bytes between the audio and the records, and its trailer of 16
// bytes.
#[tactic(auto, unfolding(crate::specs::Numbers::finish_laid))]
pub fn finish(
    head: &mut [u8],
    chunk: &mut [u8],
    trailer: &mut [u8],
    numbers: &[u64],
) -> Result<(), Refusal>
    ensures { (told result leaving head.new leaving chunk.new leaving trailer.new)
        ≡ finish_laid numbers.now head.old chunk.old trailer.old }
{
    let (Some(numbers), 76, 32, 16) = (numbers.as_array(), head.len(), chunk.len(), trailer.len())
    else {
        return Err(Refusal::WrongLength);
    };
    let recorder = recorder_in(numbers);
    closes(recorder)?;
    let front = recorder.front;
    head.copy_from_slice(&recording::head_for(front, recorder.size));
    chunk.copy_from_slice(&recording::chunk_for(front, recorder.size, recorder.crc));
    trailer.copy_from_slice(&recording::trailer_of(front.side, recorder.count, recorder.sum));
    Ok(())
}
