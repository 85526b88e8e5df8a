// The two seals of a recording, 24 bytes each, in one layout: a word, the side, a number of 64 bits, one of 32 bits,
// and the checksum of these 20 bytes. The word says which seal it is.
ghost use Rattle.std.specs.Prelude.{◌≡◌, length};
ghost use Rattle.rules.specs.Leaf.{◌leaving◌};
ghost use Rattle.rules.specs.Refusal.{told};
ghost use Rattle.wav.specs.Seal.{word_of, twenty_of, said, seal_of, seal_written, seal_as, seal_read, seal_summary};

use crate::bytes;
use rules::Refusal;
use sides::Side;

// Which seal it is.
#[derive(Drop)]
pub enum Word {
    // "TUPB", before the audio: when the recording began, and the number of its first frame.
    Begins,
    // "TUPP", after the audio: how many bytes of audio there are, and their checksum.
    Ends,
}

// What a seal says besides its word.
#[derive(Drop)]
pub struct Seal {
    pub side: Side,
    // The number of 64 bits.
    pub long: u64,
    // The number of 32 bits.
    pub short: u32,
}

// Four letters as a number, least significant byte first.
// Stays: a `match`, since the numbers are the letters that a file has; one written beside each variant is no plainer.
fn word_of(word: Word) -> u32
    ensures { result ≡ word_of word }
{
    match word {
        Word::Begins => 0x4250_5554,
        Word::Ends => 0x5050_5554,
    }
}

// The 20 bytes of four numbers, the third of 64 bits.
fn twenty(letters: u32, name: u32, long: u64, short: u32) -> [u8; 20]
    ensures { result ≡ twenty_of letters name long short }
{
    let mut bytes = [0; 20];
    bytes[..4].copy_from_slice(&letters.to_le_bytes());
    bytes[4..8].copy_from_slice(&name.to_le_bytes());
    bytes[8..16].copy_from_slice(&long.to_le_bytes());
    bytes[16..].copy_from_slice(&short.to_le_bytes());
    bytes
}

// The seal without its own checksum.
#[tactic(auto, unfolding(crate::specs::Seal::said))]
fn said_by(word: Word, seal: Seal) -> [u8; 20]
    ensures { result ≡ said word seal }
{
    let side = seal.side;
    twenty(word_of(word), side.letters(), seal.long, seal.short)
}

#[tactic(auto, using(crate::proofs::Seals::laid))]
fn lay(out: &mut [u8], word: Word, seal: Seal)
    requires { length out.old ≡ 24 }
    ensures { out.new ≡ seal_of word seal }
{
    let front = said_by(word, seal);
    let own = sheet::four(checksum::crc32(0, &front) as u64);
    out[..20].copy_from_slice(&front);
    out[20..].copy_from_slice(&own);
}

// A seal as its 24 bytes.
pub fn of(word: Word, seal: Seal) -> [u8; 24]
    ensures { result ≡ seal_of word seal }
{
    let mut bytes = [0u8; 24];
    lay(&mut bytes, word, seal);
    bytes
}

// For a host: a seal, of a side by its number. Refused are another length than 24, and a number that means no side.
#[tactic(auto, unfolding(crate::specs::Seal::seal_written))]
pub fn write(out: &mut [u8], word: Word, side: u32, long: u64, short: u32) -> Result<(), Refusal>
    ensures { (told result leaving out.new) ≡ seal_written word side long short out.old }
{
    if out.len() != 24 {
        return Err(Refusal::WrongLength);
    }
    let Some(side) = Side::of_number(side) else {
        return Err(Refusal::SealSide);
    };
    lay(out, word, Seal { side, long, short });
    Ok(())
}

// The seal with this word, at the front of some bytes.
#[tactic(auto, unfolding(crate::specs::Seal::seal_read, crate::specs::Seal::seal_faults))]
pub fn read(word: Word, file: &[u8]) -> Result<Seal, Refusal>
    ensures { seal_as result ≡ seal_read word file.now }
{
    if file.len() < 24 || bytes::four_at(file, 0) != word_of(word) as u64 {
        return Err(Refusal::SealNone);
    }
    if bytes::four_at(file, 20) != checksum::crc32(0, &file[..20]) as u64 {
        return Err(Refusal::SealChecksum);
    }
    let name = bytes::four_at(file, 4) as u32;
    let long = bytes::four_at(file, 8) + 4294967296 * bytes::four_at(file, 12);
    let short = bytes::four_at(file, 16) as u32;
    match Side::of_letters(name) {
        Some(side) => Ok(Seal { side, long, short }),
        None => Err(Refusal::SealSide),
    }
}

// For a host: the side's number, the long number and the short one. Another length than three is refused.
#[tactic(auto, unfolding(crate::specs::Seal::seal_summary))]
pub fn summary(numbers: &mut [u64], word: Word, file: &[u8]) -> Result<(), Refusal>
    ensures { (told result leaving numbers.new) ≡ seal_summary word file.now numbers.old }
{
    if numbers.len() != 3 {
        return Err(Refusal::WrongLength);
    }
    let seal = read(word, file)?;
    let side = seal.side;
    numbers.copy_from_slice(&[side.number() as u64, seal.long, seal.short as u64]);
    Ok(())
}
