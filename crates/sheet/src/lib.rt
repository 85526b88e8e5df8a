// A side sheet, which follows the audio (request 02): records of 8 bytes, and a trailer of 16 that points
// back to them. What comes before the records is not read.
#![tactic(auto)]

pub mod parts;

ghost use Rattle.std.specs.Prelude.{false, ◌≡◌, ◌+◌, ◌*◌, ◌/◌, ◌%◌, ◌≤◌, ◌<◌, ◌^◌, length, drop};
ghost use Rattle.rules.specs.Leaf.{◌leaving◌};
ghost use Rattle.rules.specs.Lists.{sum};
ghost use Rattle.rules.specs.Refusal.{told};
ghost use Rattle.sides.specs.Sides.{number_of};
ghost use Rattle.sheet.specs.Sheet.{four, kind, record_bytes, records_of, trailer_of, sheet_size};
ghost use Rattle.sheet.specs.End.{from_four, three_zeros, good_record, run, entry_of, read_as, read_sheet};
ghost use Rattle.sheet.specs.Asked.{sheet_summary, entry_at};
ghost use Rattle.sheet.specs.Written.{known_kinds, written_of};
ghost use Rattle.sheet.specs.Mended.{kept, reads_at, mend_of};
ghost use Rattle.sheet.specs.Private.{pointed, Few, Pointed, checked, Kinds, closed, copied};

use rules::Refusal;
use sides::Side;

// A good sheet in a file.
#[derive(Clone, Copy)]
pub struct Found {
    // Where its records start.
    pub start: usize,
    // How many there are.
    pub records: usize,
    // 0 left, 1 right.
    pub side: u32,
}

pub fn joined(a: u8, b: u8, c: u8, d: u8) -> usize
    ensures { (result ≡ a + 256 * b + 65536 * c + 16777216 * d) × (result < 2 ^ 32) }
{
    u32::from_le_bytes([a, b, c, d]) as usize
}

// The number that four bytes at a place are, least significant byte first.
#[tactic(auto, using(crate::proofs::Fields::four_at_lem))]
fn number_at(file: &[u8], at: usize) -> usize
    requires { at + 4 ≤ length file.now }
    ensures { (result ≡ from_four (drop at file.now)) × (result < 2 ^ 32) }
{
    joined(file[at], file[at + 1], file[at + 2], file[at + 3])
}

// Whether three bytes at a place are 0.
#[tactic(auto, using(crate::proofs::Fields::zeros_at))]
fn zeros_at(bytes: &[u8], at: usize) -> bool
    requires { at + 3 ≤ length bytes.now }
    ensures { result ≡ three_zeros (drop at bytes.now) }
{
    bytes[at] == 0 && bytes[at + 1] == 0 && bytes[at + 2] == 0
}

// Whether the record at a place is a good one of this side.
#[tactic(auto, using(crate::proofs::Fields::good_at))]
fn is_good(bytes: &[u8], at: usize, side: u32) -> bool
    requires { at + 8 ≤ length bytes.now }
    ensures { result ≡ good_record side (drop at bytes.now) }
{
    bytes[at + 4] <= 1 && bytes[at + 5] as u32 == side && bytes[at + 6] == 0 && bytes[at + 7] == 0
}

// How many of the first n records are good ones of this side, up to the first that is not.
// Stays: a record is 8 bytes at a place, so the index is used in arithmetic, and an iterator is no plainer.
fn run_of(bytes: &[u8], records: usize, side: u32) -> usize
    requires { 8 * records ≤ length bytes.now }
    ensures { result ≡ run side records bytes.now }
{
    for i in 0..records {
        if !is_good(bytes, 8 * i, side) {
            return i;
        }
    }
    records
}

fn total(bytes: &[u8]) -> u64
    requires { length bytes.now ≤ 2 ^ 32 }
    ensures { (result ≡ sum bytes.now) × (result < 2 ^ 40) }
{
    let mut sum = 0;
    for byte in bytes {
        sum += *byte as u64;
    }
    sum
}

// The sheet that a trailer points back to, by refusals 31 to 33 alone.
fn pointed_to(file: &[u8]) -> Result<Found, Refusal>
    ensures { (read_as result ≡ pointed file.now) × Few (read_as result) }
{
    if file.len() < 16 {
        return Err(Refusal::SheetShort);
    }
    let end = file.len() - 16;
    let distance = number_at(file, end);
    let records = number_at(file, end + 4);
    if distance != 8 * records || end < distance {
        return Err(Refusal::SheetDistance);
    }
    let side = file[end + 8] as u32;
    if 1 < side || !zeros_at(file, end + 9) {
        return Err(Refusal::SheetSide);
    }
    Ok(Found {
        start: end - distance,
        records,
        side,
    })
}

// The same sheet, by refusals 34 and 35.
#[tactic(auto, using(crate::proofs::Halves::at_34, crate::proofs::Halves::at_35, crate::proofs::Halves::at_all))]
fn checked_at(file: &[u8], found: Found) -> Result<Found, Refusal>
    requires { Pointed file.now found.start found.records found.side }
    ensures { read_as result ≡ checked file.now }
{
    let end = found.start + 8 * found.records;
    if run_of(&file[found.start..], found.records, found.side) != found.records {
        return Err(Refusal::SheetRecord);
    }
    let noted = number_at(file, end + 12);
    if total(&file[found.start..end]) % 4294967296 != noted as u64 {
        return Err(Refusal::SheetSum);
    }
    Ok(found)
}

pub fn read(file: &[u8]) -> Result<Found, Refusal>
    ensures { read_as result ≡ read_sheet file.now }
{
    let found = pointed_to(file)?;
    checked_at(file, found)
}

// For a host: where the records start, how many there are, and the side. A buffer of other than three places
// is refused as of a wrong length.
#[tactic(auto, unfolding(crate::specs::Asked::sheet_summary))]
pub fn summary(numbers: &mut [u64], file: &[u8]) -> Result<(), Refusal>
    ensures { (told result leaving numbers.new) ≡ sheet_summary file.now numbers.old }
{
    if numbers.len() != 3 {
        return Err(Refusal::WrongLength);
    }
    let found = read(file)?;
    numbers.copy_from_slice(&[found.start as u64, found.records as u64, found.side as u64]);
    Ok(())
}

// The entry of the record at a place.
#[tactic(auto, using(crate::proofs::Fields::entry_at_lem))]
fn entry_of(file: &[u8], at: usize) -> u64
    requires { at + 8 ≤ length file.now }
    ensures { result ≡ entry_of (drop at file.now) }
{
    number_at(file, at) as u64 + 4294967296 * (file[at + 4] as u64)
}

// For a host: the entry with this index, counted from 0. A buffer of other than one place is refused as of a wrong
// length, and so is an index beyond the last.
pub fn entry(entry: &mut [u64], file: &[u8], index: u64) -> Result<(), Refusal>
    ensures { (told result leaving entry.new) ≡ entry_at file.now index entry.old }
{
    if entry.len() != 1 {
        return Err(Refusal::WrongLength);
    }
    let found = read(file)?;
    if found.records as u64 <= index {
        return Err(Refusal::WrongLength);
    }
    entry.copy_from_slice(&[entry_of(file, found.start + 8 * (index as usize))]);
    Ok(())
}

// Whether every entry is silent or heard.
// Stays: `iter().all(..)` was tried, and the proof didn't close.
fn kinds_good(entries: &[u64]) -> bool
    ensures { result ≡ known_kinds entries.now }
{
    for entry in entries {
        if 1 < *entry / 4294967296 {
            return false;
        }
    }
    true
}

pub fn low(number: u64) -> u8
    ensures { result ≡ number % 256 }
{
    (number % 256) as u8
}

// The four bytes of a number modulo 2^32, least significant byte first.
#[tactic(auto, using(crate::proofs::Digits::four_mod), unfolding(crate::specs::Sheet::four))]
pub fn four(number: u64) -> [u8; 4]
    ensures { result ≡ four number }
{
    ((number % 4294967296) as u32).to_le_bytes()
}

#[tactic(auto, unfolding(crate::specs::Sheet::record_bytes, crate::specs::Sheet::four))]
fn record_of(side: Side, entry: u64) -> [u8; 8]
    requires { kind entry ≤ 1 }
    ensures { result ≡ record_bytes (number_of side) entry }
{
    let mut bytes = [0; 8];
    bytes[..4].copy_from_slice(&four(entry));
    bytes[4] = (entry / 4294967296) as u8;
    bytes[5] = side.number();
    bytes
}

#[tactic(auto, unfolding(crate::specs::Sheet::trailer_of, crate::specs::Sheet::four))]
fn trailer_of(records: usize, side: Side, sum: u64) -> [u8; 16]
    requires { records < 2 ^ 29 }
    ensures { result ≡ trailer_of records (number_of side) sum }
{
    let n = records as u32;
    let mut bytes = [0; 16];
    bytes[..4].copy_from_slice(&(8 * n).to_le_bytes());
    bytes[4..8].copy_from_slice(&n.to_le_bytes());
    bytes[8..12].copy_from_slice(&[side.number(), 0, 0, 0]);
    bytes[12..].copy_from_slice(&four(sum));
    bytes
}

fn write_records(out: &mut [u8], side: Side, entries: &[u64])
    requires { (length out.old ≡ 8 * length entries.now) × Kinds entries.now }
    ensures { out.new ≡ records_of (number_of side) entries.now }
{
    for (i, entry) in entries.iter().enumerate() {
        let bytes = record_of(side, *entry);
        let at = 8 * i;
        let end = at + 8;
        out[at..end].copy_from_slice(&bytes);
    }
}

// Writes the trailer after so many records, which are at the front.
#[tactic(auto, using(crate::proofs::Laying::closing))]
fn close(out: &mut [u8], records: usize, side: Side)
    requires { (length out.old ≡ sheet_size records) × (records < 2 ^ 29) }
    ensures { out.new ≡ closed records (number_of side) out.old }
{
    let end = 8 * records;
    let sum = total(&out[..end]);
    let bytes = trailer_of(records, side, sum);
    out[end..].copy_from_slice(&bytes);
}

// Writes the sheet of these entries to the front of a buffer. An entry is a frame's number, plus 2^32 if it
// was heard.
pub fn write(out: &mut [u8], side: u32, entries: &[u64]) -> Result<(), Refusal>
    ensures { (told result leaving out.new)
        ≡ written_of (record { side = side; entries = entries.now }) out.old }
{
    let records = entries.len();
    if 536870911 < records {
        return Err(Refusal::SheetDistance);
    }
    let Some(named) = Side::of_number(side) else {
        return Err(Refusal::SheetSide);
    };
    if !kinds_good(entries) {
        return Err(Refusal::SheetRecord);
    }
    let end = 8 * records;
    let size = end + 16;
    if out.len() < size {
        return Err(Refusal::SheetNoRoom);
    }
    write_records(&mut out[..end], named, entries);
    close(&mut out[..size], records, named);
    Ok(())
}

// How many whole good records, all of the first one's side, are at the front.
#[tactic(auto, using(crate::proofs::Kept::kept_short, crate::proofs::Kept::kept_none, crate::proofs::Kept::kept_run))]
fn kept_of(bytes: &[u8]) -> usize
    ensures { result ≡ kept bytes.now }
{
    if bytes.len() < 8 {
        return 0;
    }
    let side = bytes[5] as u32;
    if 1 < side {
        return 0;
    }
    run_of(bytes, bytes.len() / 8, side)
}

// Copies a file that reads, with so many records.
fn copy_whole(
    numbers: &mut [u64],
    out: &mut [u8],
    file: &[u8],
    records: usize,
) -> Result<(), Refusal>
    requires { length numbers.old ≡ 2 }
    ensures { (told result leaving numbers.new leaving out.new)
        ≡ copied file.now records numbers.old out.old }
{
    let size = file.len();
    if out.len() < size {
        return Err(Refusal::SheetNoRoom);
    }
    out[..size].copy_from_slice(file);
    numbers.copy_from_slice(&[size as u64, records as u64]);
    Ok(())
}

// Mends a file that does not read so: its bytes up to a place, the good records after it, and a trailer.
fn mend_run(numbers: &mut [u64], out: &mut [u8], file: &[u8], at: usize) -> Result<(), Refusal>
    requires { (length numbers.old ≡ 2) × (at ≤ length file.now) × (reads_at at (read_sheet file.now) ≡ false) }
    ensures { (told result leaving numbers.new leaving out.new)
        ≡ mend_of file.now at numbers.old out.old }
{
    let records = kept_of(&file[at..]);
    if records == 0 {
        return Err(Refusal::MendNothing);
    }
    if 536870911 < records {
        return Err(Refusal::SheetDistance);
    }
    let end = at + 8 * records;
    let size = end + 16;
    if out.len() < size {
        return Err(Refusal::SheetNoRoom);
    }
    let side = Side::of_number(file[at + 5] as u32).unwrap();
    out[..end].copy_from_slice(&file[..end]);
    close(&mut out[at..size], records, side);
    numbers.copy_from_slice(&[size as u64, records as u64]);
    Ok(())
}

// For a host: mends a torn sheet. The audio ends at a place. Whole good records of one side from there on are
// kept, and get a new trailer. A file that reads with its records at that place is copied. The numbers are
// how many bytes were written, and how many records they have.
#[tactic(auto, unfolding(crate::specs::Mended::mend_of))]
pub fn mend(numbers: &mut [u64], out: &mut [u8], file: &[u8], place: u64) -> Result<(), Refusal>
    ensures { (told result leaving numbers.new leaving out.new)
        ≡ mend_of file.now place numbers.old out.old }
{
    if numbers.len() != 2 {
        return Err(Refusal::WrongLength);
    }
    if (file.len() as u64) < place {
        return Err(Refusal::MendPlace);
    }
    let at = place as usize;
    match read(file) {
        Ok(found) if found.start == at => copy_whole(numbers, out, file, found.records),
        _ => mend_run(numbers, out, file, at),
    }
}
