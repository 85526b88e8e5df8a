// The functions of crates/export/src/of_sheet.rt for C: the same names and contracts.
// tools/make_export_c.sh makes this file.
ghost use Rattle.std.specs.Prelude.{◌≡◌};
ghost use Rattle.rules.specs.Leaf.{◌leaving◌};
ghost use Rattle.sheet.specs.Asked.{sheet_summary, entry_at};
ghost use Rattle.sheet.specs.Mended.{mend_of};
ghost use Rattle.sheet.specs.Rows.{records_laid, trailer_laid};
ghost use Rattle.sheet.specs.Written.{written_of};

#[unsafe(no_mangle)]
pub extern "C" fn tuppence_sheet_write(out: &mut [u8], side: u32, entries: &[u64]) -> u32
    ensures { (result leaving out.new)
        ≡ written_of (record { side = side; entries = entries.now }) out.old }
{
    export::of_sheet::tuppence_sheet_write(out, side, entries)
}

#[unsafe(no_mangle)]
pub extern "C" fn tuppence_sheet_records(
    numbers: &mut [u64],
    out: &mut [u8],
    side: u32,
    entries: &[u64],
) -> u32
    ensures { (result leaving numbers.new leaving out.new)
        ≡ records_laid side entries.now numbers.old out.old }
{
    export::of_sheet::tuppence_sheet_records(numbers, out, side, entries)
}

#[unsafe(no_mangle)]
pub extern "C" fn tuppence_sheet_trailer(out: &mut [u8], side: u32, count: u64, sum: u64) -> u32
    ensures { (result leaving out.new) ≡ trailer_laid side count sum out.old }
{
    export::of_sheet::tuppence_sheet_trailer(out, side, count, sum)
}

#[unsafe(no_mangle)]
pub extern "C" fn tuppence_sheet_read(numbers: &mut [u64], file: &[u8]) -> u32
    ensures { (result leaving numbers.new) ≡ sheet_summary file.now numbers.old }
{
    export::of_sheet::tuppence_sheet_read(numbers, file)
}

#[unsafe(no_mangle)]
pub extern "C" fn tuppence_sheet_entry(entry: &mut [u64], file: &[u8], index: u64) -> u32
    ensures { (result leaving entry.new) ≡ entry_at file.now index entry.old }
{
    export::of_sheet::tuppence_sheet_entry(entry, file, index)
}

#[unsafe(no_mangle)]
pub extern "C" fn tuppence_mend(numbers: &mut [u64], out: &mut [u8], file: &[u8], place: u64) -> u32
    ensures { (result leaving numbers.new leaving out.new)
        ≡ mend_of file.now place numbers.old out.old }
{
    export::of_sheet::tuppence_mend(numbers, out, file, place)
}
