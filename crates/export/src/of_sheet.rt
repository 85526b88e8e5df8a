// sheet: the side sheet of a recording, written at once or in parts, read, and mended. An entry is a frame's number,
// plus 2^32 if the frame was heard.
// Refusals: 5 a slice has a wrong length, or there is no such entry; 31 the file is too short for a sheet; 32 it
// does not end in a trailer that points back to records; 33 the trailer's side is neither left nor right; 34 a
// record is damaged; 35 the records have another sum; 36 `out` is too short; 37 the place is beyond the end; 38
// there is no record to keep.
ghost use Rattle.std.specs.Prelude.{◌≡◌};
ghost use Rattle.rules.specs.Leaf.{◌leaving◌};
ghost use Rattle.sheet.specs.Asked.{sheet_summary, entry_at};
ghost use Rattle.sheet.specs.Mended.{mend_of};
ghost use Rattle.sheet.specs.Rows.{records_laid, trailer_laid};
ghost use Rattle.sheet.specs.Written.{written_of};

use rules::told;

// Writes a whole sheet. `entries` has at most 536,870,911. `out` has 16 bytes and 8 for each entry; what it has
// beyond that stays. `side` is 0 for left, 1 for right.
#[unsafe(no_mangle)]
pub extern "C" fn tuppence_sheet_write(out: &mut [u8], side: u32, entries: &[u64]) -> u32
    ensures { (result leaving out.new)
        ≡ written_of (record { side = side; entries = entries.now }) out.old }
{
    told(sheet::write(out, side, entries))
}

// Writes the next records. `numbers` has two places, both 0 at first: how many records there are so far, and the sum
// of their bytes. `entries` are the next ones. `out` has 8 bytes for each; what it has beyond that stays.
#[unsafe(no_mangle)]
pub extern "C" fn tuppence_sheet_records(
    numbers: &mut [u64],
    out: &mut [u8],
    side: u32,
    entries: &[u64],
) -> u32
    ensures { (result leaving numbers.new leaving out.new)
        ≡ records_laid side entries.now numbers.old out.old }
{
    told(sheet::parts::records(numbers, out, side, entries))
}

// Writes the trailer of `count` records with this `sum`. `out` has 16 bytes; what it has beyond that stays.
#[unsafe(no_mangle)]
pub extern "C" fn tuppence_sheet_trailer(out: &mut [u8], side: u32, count: u64, sum: u64) -> u32
    ensures { (result leaving out.new) ≡ trailer_laid side count sum out.old }
{
    told(sheet::parts::trailer(out, side, count, sum))
}

// Reads a sheet. `numbers` has three places: where the records start, how many there are, and the side. `file` is
// the bytes of a recording, or its last ones from the first record on.
#[unsafe(no_mangle)]
pub extern "C" fn tuppence_sheet_read(numbers: &mut [u64], file: &[u8]) -> u32
    ensures { (result leaving numbers.new) ≡ sheet_summary file.now numbers.old }
{
    told(sheet::summary(numbers, file))
}

// Reads one entry. `entry` has one place, for the entry with this index, counted from 0. `file` is as for
// tuppence_sheet_read.
#[unsafe(no_mangle)]
pub extern "C" fn tuppence_sheet_entry(entry: &mut [u64], file: &[u8], index: u64) -> u32
    ensures { (result leaving entry.new) ≡ entry_at file.now index entry.old }
{
    told(sheet::entry(entry, file, index))
}

// Mends a torn sheet. `numbers` has two places: how many bytes are written, and how many records they have. `out`
// has 16 bytes more than `file`, which is always enough. The audio of `file` ends at `place`.
#[unsafe(no_mangle)]
pub extern "C" fn tuppence_mend(numbers: &mut [u64], out: &mut [u8], file: &[u8], place: u64) -> u32
    ensures { (result leaving numbers.new leaving out.new)
        ≡ mend_of file.now place numbers.old out.old }
{
    told(sheet::mend(numbers, out, file, place))
}
