// The functions of crates/export/src/of_wav.rt for C: the same names and contracts.
// tools/make_export_c.sh makes this file.
ghost use Rattle.std.specs.Prelude.{◌≡◌};
ghost use Rattle.rules.specs.Leaf.{◌leaving◌};
ghost use Rattle.checksum.specs.Checksum.{crc32};
ghost use Rattle.wav.specs.Chunks.{step_told};
ghost use Rattle.wav.specs.Head.{head_written};
ghost use Rattle.wav.specs.Seal.{seal_summary, seal_written};
ghost use Rattle.wav.specs.declared.seal.Word.TheVariants.{Begins, Ends};

#[unsafe(no_mangle)]
pub extern "C" fn tuppence_checksum(before: u32, bytes: &[u8]) -> u32
    ensures { result ≡ crc32 before bytes.now }
{
    export::of_wav::tuppence_checksum(before, bytes)
}

#[unsafe(no_mangle)]
pub extern "C" fn tuppence_seal_write(out: &mut [u8], side: u32, size: u64, checksum: u32) -> u32
    ensures { (result leaving out.new) ≡ seal_written Ends side size checksum out.old }
{
    export::of_wav::tuppence_seal_write(out, side, size, checksum)
}

#[unsafe(no_mangle)]
pub extern "C" fn tuppence_seal_read(numbers: &mut [u64], file: &[u8]) -> u32
    ensures { (result leaving numbers.new) ≡ seal_summary Ends file.now numbers.old }
{
    export::of_wav::tuppence_seal_read(numbers, file)
}

#[unsafe(no_mangle)]
pub extern "C" fn tuppence_front_write(out: &mut [u8], side: u32, began: u64, first: u32) -> u32
    ensures { (result leaving out.new) ≡ seal_written Begins side began first out.old }
{
    export::of_wav::tuppence_front_write(out, side, began, first)
}

#[unsafe(no_mangle)]
pub extern "C" fn tuppence_front_read(numbers: &mut [u64], file: &[u8]) -> u32
    ensures { (result leaving numbers.new) ≡ seal_summary Begins file.now numbers.old }
{
    export::of_wav::tuppence_front_read(numbers, file)
}

#[unsafe(no_mangle)]
pub extern "C" fn tuppence_wav_head(out: &mut [u8], rate: u32, size: u32, behind: u32) -> u32
    ensures { (result leaving out.new) ≡ head_written rate size behind out.old }
{
    export::of_wav::tuppence_wav_head(out, rate, size, behind)
}

#[unsafe(no_mangle)]
pub extern "C" fn tuppence_wav_read(numbers: &mut [u64], file: &[u8]) -> u32
    ensures { (result leaving numbers.new) ≡ step_told file.now numbers.old }
{
    export::of_wav::tuppence_wav_read(numbers, file)
}
