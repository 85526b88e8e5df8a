// The head of a WAV file with one channel of 16 bits.
ghost use Rattle.std.specs.Prelude.{◌≡◌};
ghost use Rattle.rules.specs.Leaf.{◌leaving◌};
ghost use Rattle.rules.specs.Refusal.{told};
ghost use Rattle.wav.specs.Head.{riff_size, head_of, head_written};

use rules::Refusal;

// RIFF's size: how many bytes follow it, or the most that 32 bits can hold.
fn riff_size(size: u32, behind: u32) -> u32
    ensures { result ≡ riff_size size behind }
{
    (36 + size as u64 + (size % 2) as u64 + behind as u64).min(4294967295) as u32
}

// The format's 16 bytes say: format 1, one channel, the rate, bytes a second, 2 bytes a sample, 16 bits.
pub fn head_of(rate: u32, size: u32, behind: u32) -> [u8; 44]
    ensures { result ≡ head_of rate size behind }
{
    let mut head = [0; 44];
    head[..4].copy_from_slice(b"RIFF");
    head[4..8].copy_from_slice(&riff_size(size, behind).to_le_bytes());
    head[8..24].copy_from_slice(b"WAVEfmt \x10\0\0\0\x01\0\x01\0");
    head[24..28].copy_from_slice(&rate.to_le_bytes());
    head[28..32].copy_from_slice(&2u32.wrapping_mul(rate).to_le_bytes());
    head[32..40].copy_from_slice(b"\x02\0\x10\0data");
    head[40..].copy_from_slice(&size.to_le_bytes());
    head
}

// The head for so many bytes of audio at a rate, with so many bytes of chunks after them. 4,294,967,295 bytes
// of audio mean: to the end of the file. A buffer of other than 44 bytes is refused.
#[tactic(auto, unfolding(crate::specs::Head::head_written))]
pub fn write(out: &mut [u8], rate: u32, size: u32, behind: u32) -> Result<(), Refusal>
    ensures { (told result leaving out.new) ≡ head_written rate size behind out.old }
{
    if out.len() != 44 {
        return Err(Refusal::WrongLength);
    }
    let head = head_of(rate, size, behind);
    out.copy_from_slice(&head);
    Ok(())
}
