// The functions of crates/export/src/of_recorder.rt for C: the same names and contracts.
// tools/make_export_c.sh makes this file.
ghost use Rattle.std.specs.Prelude.{◌≡◌};
ghost use Rattle.rules.specs.Leaf.{◌leaving◌};
ghost use Rattle.recorder.specs.Numbers.{begun_laid, more_laid, closing_laid, next_laid, finish_laid};

#[unsafe(no_mangle)]
pub extern "C" fn tuppence_recorder_begin(
    numbers: &mut [u64],
    side: u32,
    began: u64,
    first: u32,
) -> u32
    ensures { (result leaving numbers.new) ≡ begun_laid side began first numbers.old }
{
    export::of_recorder::tuppence_recorder_begin(numbers, side, began, first)
}

#[unsafe(no_mangle)]
pub extern "C" fn tuppence_recorder_more(
    numbers: &mut [u64],
    part: &mut [u64],
    taken: u32,
    cleaned: &[u8],
    records: &[u8],
) -> u32
    ensures { (result leaving numbers.new leaving part.new)
        ≡ more_laid taken cleaned.now records.now numbers.old part.old }
{
    export::of_recorder::tuppence_recorder_more(numbers, part, taken, cleaned, records)
}

#[unsafe(no_mangle)]
pub extern "C" fn tuppence_recorder_closing(silence: &mut [u64], numbers: &[u64]) -> u32
    ensures { (result leaving silence.new) ≡ closing_laid numbers.now silence.old }
{
    export::of_recorder::tuppence_recorder_closing(silence, numbers)
}

#[unsafe(no_mangle)]
pub extern "C" fn tuppence_recorder_next(numbers: &mut [u64], began: u64) -> u32
    ensures { (result leaving numbers.new) ≡ next_laid began numbers.old }
{
    export::of_recorder::tuppence_recorder_next(numbers, began)
}

#[unsafe(no_mangle)]
pub extern "C" fn tuppence_recorder_finish(
    head: &mut [u8],
    chunk: &mut [u8],
    trailer: &mut [u8],
    numbers: &[u64],
) -> u32
    ensures { (result leaving head.new leaving chunk.new leaving trailer.new)
        ≡ finish_laid numbers.now head.old chunk.old trailer.old }
{
    export::of_recorder::tuppence_recorder_finish(head, chunk, trailer, numbers)
}
