// pcm: recorded bytes to samples, and samples to bytes.
ghost use Rattle.std.specs.Prelude.{length};
ghost use Rattle.rules.specs.Leaf.{Leaf, ◌leaving◌};
ghost use Rattle.pcm.specs.Pcm.{UnpackFits, unpacked, PackFits, packed};

use rules::told;

// Unpacks one channel. `bytes` are whole samples of all channels in turn, least significant byte first. `format` is
// 16 or 24 for integers of that many bits, 33 for 32-bit integers, 32 for floats. `out` has a place for each sample
// of the channel.
#[unsafe(no_mangle)]
pub extern "C" fn tuppence_unpack(
    out: &mut [f32],
    bytes: &[u8],
    format: u32,
    channels: u32,
    channel: u32,
) -> u32
    ensures { Leaf (UnpackFits (length out.old) (length bytes.now) format channels channel)
        (result leaving out.new)
        (0 leaving unpacked (length out.old) bytes.now format channels channel)
        (5 leaving out.old) }
{
    told(pcm::unpack(out, bytes, format, channels as usize, channel as usize))
}

// Packs samples as 16-bit integers. `out` has two bytes for each of the `samples`.
#[unsafe(no_mangle)]
pub extern "C" fn tuppence_pack(out: &mut [u8], samples: &[f32]) -> u32
    ensures { Leaf (PackFits (length out.old) (length samples.now))
        (result leaving out.new)
        (0 leaving packed samples.now)
        (5 leaving out.old) }
{
    told(pcm::pack(out, samples))
}
