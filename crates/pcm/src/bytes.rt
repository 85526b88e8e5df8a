// A channel of interleaved bytes as samples, and samples as 16-bit bytes.
ghost use Rattle.std.specs.Prelude.{◌≡◌, Ok, Err, length};
ghost use Rattle.rules.specs.Leaf.{Leaf, ◌leaving◌};
ghost use Rattle.rules.specs.declared.refusal.Refusal.TheVariants.{WrongLength};
ghost use Rattle.pcm.specs.Pcm.{UnpackFits, unpacked, PackFits, packed};
ghost use Rattle.pcm.specs.Private.{numbered};

use crate::number::Format;
use rules::Refusal;

// `unpack` for lengths that fit.
fn unpack_core(out: &mut [f32], bytes: &[u8], format: Format, channels: usize, channel: usize)
    requires { UnpackFits (length out.old) (length bytes.now) (numbered format) channels channel }
    ensures { out.new
        ≡ unpacked (length out.old) bytes.now (numbered format) channels channel }
{
    let width = format.width();
    for (i, sample) in out.iter_mut().enumerate() {
        *sample = crate::number::number_at(format, bytes, (i * channels + channel) * width);
    }
}

// Fills `out` with the samples of one channel. In `bytes` the channels take turns.
// Stays: the format is a number, since a call from C gives one: the C interface.
pub fn unpack(
    out: &mut [f32],
    bytes: &[u8],
    format: u32,
    channels: usize,
    channel: usize,
) -> Result<(), Refusal>
    ensures { Leaf (UnpackFits (length out.old) (length bytes.now) format channels channel)
        (result leaving out.new)
        (Ok tt leaving unpacked (length out.old) bytes.now format channels channel)
        (Err WrongLength leaving out.old) }
{
    let Ok(known) = Format::try_from(format) else {
        return Err(Refusal::WrongLength);
    };
    if channels > 65535 || channel >= channels {
        return Err(Refusal::WrongLength);
    }
    let block = channels * known.width();
    if bytes.len() % block != 0 || bytes.len() / block != out.len() {
        return Err(Refusal::WrongLength);
    }
    unpack_core(out, bytes, known, channels, channel);
    Ok(())
}

// `pack` for lengths that fit.
fn pack_core(out: &mut [u8], samples: &[f32])
    requires { PackFits (length out.old) (length samples.now) }
    ensures { out.new ≡ packed samples.now }
{
    for (i, sample) in samples.iter().enumerate() {
        let [low, high] = crate::nearest::nearest(*sample).to_le_bytes();
        out[2 * i] = low;
        out[2 * i + 1] = high;
    }
}

// Writes each sample as two bytes.
pub fn pack(out: &mut [u8], samples: &[f32]) -> Result<(), Refusal>
    ensures { Leaf (PackFits (length out.old) (length samples.now))
        (result leaving out.new)
        (Ok tt leaving packed samples.now)
        (Err WrongLength leaving out.old) }
{
    if out.len() % 2 != 0 || out.len() / 2 != samples.len() {
        return Err(Refusal::WrongLength);
    }
    pack_core(out, samples);
    Ok(())
}
