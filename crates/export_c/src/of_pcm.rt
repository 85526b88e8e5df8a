// The functions of crates/export/src/of_pcm.rt for C: the same names and contracts.
// tools/make_export_c.sh makes this file.
ghost use Rattle.std.specs.Prelude.{length};
ghost use Rattle.rules.specs.Leaf.{Leaf, ◌leaving◌};
ghost use Rattle.pcm.specs.Pcm.{UnpackFits, unpacked, PackFits, packed};

#[unsafe(no_mangle)]
pub extern "C" fn tuppence_unpack(
    out: &mut [f32],
    bytes: &[u8],
    format: u32,
    channels: u32,
    channel: u32,
) -> u32
    ensures { Leaf (UnpackFits (length out.old) (length bytes.now) format channels channel)
        (result leaving out.new)
        (0 leaving unpacked (length out.old) bytes.now format channels channel)
        (5 leaving out.old) }
{
    export::of_pcm::tuppence_unpack(out, bytes, format, channels, channel)
}

#[unsafe(no_mangle)]
pub extern "C" fn tuppence_pack(out: &mut [u8], samples: &[f32]) -> u32
    ensures { Leaf (PackFits (length out.old) (length samples.now))
        (result leaving out.new)
        (0 leaving packed samples.now)
        (5 leaving out.old) }
{
    export::of_pcm::tuppence_pack(out, samples)
}
