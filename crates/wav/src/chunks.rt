// The head of a WAV file, read chunk by chunk from the bytes that are lent.
ghost use Rattle.std.specs.Prelude.{◌≡◌, ◌+◌, ◌≤◌, ◌<◌, ◌^◌, length};
ghost use Rattle.rules.specs.Leaf.{◌leaving◌};
ghost use Rattle.wav.specs.Chunks.{tag_in, format_of, front_of, past_chunk, formatted, chunk_of, step_of, head_numbers};
ghost use Rattle.wav.specs.Chunks.{step_as, next_told, step_told};

use crate::bytes;
use rules::Refusal;

// Four letters each, as a number, least significant byte first.
const RIFF: u64 = 0x4646_4952;

const WAVE: u64 = 0x4556_4157;

const FMT: u64 = 0x2074_6d66;

const DATA: u64 = 0x6174_6164;

// Where a reading is: the place in the file whose bytes it wants next, and what the chunk `fmt ` said (format
// 0 before that). At the end the audio starts at the place and has so many bytes.
#[derive(Drop)]
pub struct Head {
    pub place: u64,
    pub format: u64,
    pub channels: u64,
    pub rate: u64,
    pub size: u64,
}

// What a step of a reading came to.
#[derive(Clone, Copy)]
pub enum Next {
    // The audio starts at the place.
    Found,
    // The bytes from the place on are wanted.
    More,
}

// The number that a host is told: 0 if the audio was found, 40 if the bytes from the place on are wanted, and else the
// number of the refusal.
pub fn told(outcome: Result<Next, Refusal>) -> u32
    ensures { result ≡ next_told outcome }
{
    match outcome {
        Ok(Next::Found) => 0,
        Ok(Next::More) => 40,
        Err(refusal) => refusal.number(),
    }
}

// The first twelve bytes of a file.
#[tactic(auto, unfolding(crate::specs::Chunks::front_of))]
fn front(file: &[u8]) -> Result<(Next, Head), Refusal>
    ensures { step_as result ≡ front_of file.now }
{
    if file.len() < 12 || bytes::four_at(file, 0) != RIFF || bytes::four_at(file, 8) != WAVE {
        return Err(Refusal::WavNoRiff);
    }
    Ok((
        Next::More,
        Head {
            place: 12,
            format: 0,
            channels: 0,
            rate: 0,
            size: 0,
        },
    ))
}

// The tag of a format. An extensible format has its tag at the beginning of its identifier.
#[tactic(auto, unfolding(crate::specs::Chunks::tag_in))]
fn tag_in(file: &[u8], size: u64) -> u64
    requires { (24 ≤ length file.now) × (26 ≤ size → 34 ≤ length file.now) }
    ensures { result ≡ tag_in size file.now }
{
    let tag = bytes::two_at(file, 8);
    if tag != 65534 {
        return tag;
    }
    if size < 26 {
        return 0;
    }
    bytes::two_at(file, 32)
}

// The format: 16 or 24 for whole numbers of that many bits, 33 for whole numbers of 32 bits, 32 for floats, 0
// for any other.
#[tactic(auto, unfolding(crate::specs::Chunks::format_of))]
fn format_of(tag: u64, bits: u64) -> u64
    ensures { (result ≡ format_of tag bits) × (result ≤ 33) }
{
    match (tag, bits) {
        (1, 16) => 16,
        (1, 24) => 24,
        (1, 32) => 33,
        (3, 32) => 32,
        _ => 0,
    }
}

// The reading after a chunk of this size, at a place below 2^63.
fn pass(size: u64, head: Head) -> Head
    requires { (size < 2 ^ 32) × (head.place < 2 ^ 63) }
    ensures { result ≡ past_chunk size head }
{
    Head {
        place: head.place + 8 + size + size % 2,
        format: head.format,
        channels: head.channels,
        rate: head.rate,
        size: head.size,
    }
}

// The chunk `fmt ` of this size, at a place below 2^63.
#[tactic(auto, unfolding(crate::specs::Chunks::formatted, crate::specs::Chunks::format_faults))]
fn format(file: &[u8], size: u64, head: Head) -> Result<(Next, Head), Refusal>
    requires { (8 ≤ length file.now) × (size < 2 ^ 32) × (head.place < 2 ^ 63) }
    ensures { step_as result ≡ formatted file.now size head }
{
    if (file.len() as u64) < 8 + size.min(26) {
        return Err(Refusal::WavEnds);
    }
    if size < 16 {
        return Err(Refusal::WavShortFormat);
    }
    let format = format_of(tag_in(file, size), bytes::two_at(file, 22));
    if format == 0 {
        return Err(Refusal::WavFormat);
    }
    let channels = bytes::two_at(file, 10);
    if channels == 0 || 64 < channels {
        return Err(Refusal::WavChannels);
    }
    if bytes::two_at(file, 20) != channels * (format / 8) {
        return Err(Refusal::WavBlock);
    }
    let rate = bytes::four_at(file, 12);
    let described = Head {
        place: head.place,
        format,
        channels,
        rate,
        size: 0,
    };
    Ok((Next::More, pass(size, described)))
}

// A chunk, or where the audio starts.
#[tactic(auto, unfolding(crate::specs::Chunks::chunk_of))]
fn chunk(file: &[u8], head: Head) -> Result<(Next, Head), Refusal>
    ensures { step_as result ≡ chunk_of file.now head }
{
    if file.len() < 8 || 9223372036854775807 < head.place {
        return Err(Refusal::WavEnds);
    }
    let name = bytes::four_at(file, 0);
    let size = bytes::four_at(file, 4);
    if name == DATA {
        if head.format == 0 {
            return Err(Refusal::WavNoFormat);
        }
        let audio = Head {
            place: head.place + 8,
            format: head.format,
            channels: head.channels,
            rate: head.rate,
            size,
        };
        return Ok((Next::Found, audio));
    }
    if name != FMT || head.format != 0 {
        return Ok((Next::More, pass(size, head)));
    }
    format(file, size, head)
}

// The next step of a reading. The bytes that are lent are the file's from the reading's place on: 34, or as
// many as there are.
#[tactic(auto, unfolding(crate::specs::Chunks::step_of))]
pub fn go_on(file: &[u8], head: Head) -> Result<(Next, Head), Refusal>
    ensures { step_as result ≡ step_of file.now head }
{
    if head.place == 0 {
        return front(file);
    }
    chunk(file, head)
}

fn tell(numbers: &mut [u64], head: Head)
    requires { length numbers.old ≡ 5 }
    ensures { numbers.new ≡ head_numbers head }
{
    numbers.copy_from_slice(&[head.place, head.format, head.channels, head.rate, head.size]);
}

// For a host: the next step of a reading, in numbers: place, format, channels, rate and size, all 0 at first. A buffer
// of other than five numbers is refused as of a wrong length.
#[tactic(auto, unfolding(crate::specs::Chunks::step_told))]
pub fn read(numbers: &mut [u64], file: &[u8]) -> Result<Next, Refusal>
    ensures { (next_told result leaving numbers.new) ≡ step_told file.now numbers.old }
{
    if numbers.len() != 5 {
        return Err(Refusal::WrongLength);
    }
    let head = Head {
        place: numbers[0],
        format: numbers[1],
        channels: numbers[2],
        rate: numbers[3],
        size: numbers[4],
    };
    let (next, found) = go_on(file, head)?;
    tell(numbers, found);
    Ok(next)
}
