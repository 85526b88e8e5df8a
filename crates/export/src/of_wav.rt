// checksum and wav: a checksum, the two seals of a recording, and the head of a WAV file.
ghost use Rattle.std.specs.Prelude.{◌≡◌};
ghost use Rattle.rules.specs.Leaf.{◌leaving◌};
ghost use Rattle.checksum.specs.Checksum.{crc32};
ghost use Rattle.wav.specs.Chunks.{step_told};
ghost use Rattle.wav.specs.Head.{head_written};
ghost use Rattle.wav.specs.Seal.{seal_summary, seal_written};
ghost use Rattle.wav.specs.declared.seal.Word.TheVariants.{Begins, Ends};

use rules::told;
use wav::seal::Word;

// The CRC-32 of the bytes so far, followed by these `bytes`. `before` is the checksum of the bytes so far, 0 at
// first.
#[unsafe(no_mangle)]
pub extern "C" fn tuppence_checksum(before: u32, bytes: &[u8]) -> u32
    ensures { result ≡ crc32 before bytes.now }
{
    checksum::crc32(before, bytes)
}

// Writes the end seal of a recording. `out` has 24 bytes. `side` is 0 for left, 1 for right; the audio has `size`
// bytes with this `checksum`.
#[unsafe(no_mangle)]
pub extern "C" fn tuppence_seal_write(out: &mut [u8], side: u32, size: u64, checksum: u32) -> u32
    ensures { (result leaving out.new) ≡ seal_written Ends side size checksum out.old }
{
    told(wav::seal::write(out, Word::Ends, side, size, checksum))
}

// Reads an end seal. `numbers` has three places: the side, the number of bytes of audio, and their checksum. `file`
// is whatever there is from the end seal on.
#[unsafe(no_mangle)]
pub extern "C" fn tuppence_seal_read(numbers: &mut [u64], file: &[u8]) -> u32
    ensures { (result leaving numbers.new) ≡ seal_summary Ends file.now numbers.old }
{
    told(wav::seal::summary(numbers, Word::Ends, file))
}

// Writes the front seal of a recording. `out` has 24 bytes. The recording began `began` seconds after the start of
// 1970, 0 if nobody knows, and its `first` frame has this number.
#[unsafe(no_mangle)]
pub extern "C" fn tuppence_front_write(out: &mut [u8], side: u32, began: u64, first: u32) -> u32
    ensures { (result leaving out.new) ≡ seal_written Begins side began first out.old }
{
    told(wav::seal::write(out, Word::Begins, side, began, first))
}

// Reads a front seal. `numbers` has three places: the side, when the recording began, and the number of its first
// frame. `file` is whatever there is from the front seal on.
#[unsafe(no_mangle)]
pub extern "C" fn tuppence_front_read(numbers: &mut [u64], file: &[u8]) -> u32
    ensures { (result leaving numbers.new) ≡ seal_summary Begins file.now numbers.old }
{
    told(wav::seal::summary(numbers, Word::Begins, file))
}

// Writes the head of a WAV file. `out` has 44 bytes. The audio has `size` bytes at this rate, and the chunks
// `behind` it have so many bytes.
#[unsafe(no_mangle)]
pub extern "C" fn tuppence_wav_head(out: &mut [u8], rate: u32, size: u32, behind: u32) -> u32
    ensures { (result leaving out.new) ≡ head_written rate size behind out.old }
{
    told(wav::head::write(out, rate, size, behind))
}

// Reads the head of a WAV file, a chunk at a time. `numbers` has five places, all 0 at first: the place in the file,
// the format, the channels, the rate and the size of the audio. `file` has the bytes from that place on, 34 or more
// unless the file ends. 40 means: call again.
#[unsafe(no_mangle)]
pub extern "C" fn tuppence_wav_read(numbers: &mut [u64], file: &[u8]) -> u32
    ensures { (result leaving numbers.new) ≡ step_told file.now numbers.old }
{
    wav::chunks::told(wav::chunks::read(numbers, file))
}
