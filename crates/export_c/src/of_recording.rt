// The functions of crates/export/src/of_recording.rt for C: the same names and contracts.
// tools/make_export_c.sh makes this file.
ghost use Rattle.std.specs.Prelude.{◌≡◌};
ghost use Rattle.rules.specs.Leaf.{◌leaving◌};
ghost use Rattle.recording.specs.Judge.{fed, begin};
ghost use Rattle.recording.specs.Numbers.{judge_in, judge_laid, verdict_laid};
ghost use Rattle.recording.specs.Writer.{head_laid, chunk_laid};

#[unsafe(no_mangle)]
pub extern "C" fn tuppence_judge_begin(numbers: &mut [u64], held: &mut [u8]) -> u32
    ensures { (result leaving numbers.new leaving held.new)
        ≡ judge_laid begin numbers.old held.old }
{
    export::of_recording::tuppence_judge_begin(numbers, held)
}

#[unsafe(no_mangle)]
pub extern "C" fn tuppence_judge_more(numbers: &mut [u64], held: &mut [u8], bytes: &[u8]) -> u32
    ensures { (result leaving numbers.new leaving held.new)
        ≡ judge_laid (fed (judge_in numbers.old held.old) bytes.now)
        numbers.old held.old }
{
    export::of_recording::tuppence_judge_more(numbers, held, bytes)
}

#[unsafe(no_mangle)]
pub extern "C" fn tuppence_judge_verdict(out: &mut [u64], numbers: &[u64], held: &[u8]) -> u32
    ensures { (result leaving out.new)
        ≡ verdict_laid numbers.now held.now out.old }
{
    export::of_recording::tuppence_judge_verdict(out, numbers, held)
}

#[unsafe(no_mangle)]
pub extern "C" fn tuppence_recording_head(
    out: &mut [u8],
    side: u32,
    began: u64,
    first: u32,
    size: u32,
) -> u32
    ensures { (result leaving out.new) ≡ head_laid side began first size out.old }
{
    export::of_recording::tuppence_recording_head(out, side, began, first, size)
}

#[unsafe(no_mangle)]
pub extern "C" fn tuppence_recording_chunk(
    out: &mut [u8],
    side: u32,
    first: u32,
    size: u32,
    checksum: u32,
) -> u32
    ensures { (result leaving out.new) ≡ chunk_laid side first size checksum out.old }
{
    export::of_recording::tuppence_recording_chunk(out, side, first, size, checksum)
}
