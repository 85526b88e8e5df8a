// A sheet written in parts: the records of some entries at a time, and at the end a trailer.
ghost use Rattle.std.specs.Prelude.{◌≡◌, ◌*◌, ◌≤◌, ◌<◌, ◌^◌, length};
ghost use Rattle.rules.specs.Leaf.{◌leaving◌};
ghost use Rattle.rules.specs.Lists.{sum};
ghost use Rattle.rules.specs.Refusal.{told};
ghost use Rattle.sides.specs.Sides.{number_of};
ghost use Rattle.sheet.specs.Sheet.{records_of};
ghost use Rattle.sheet.specs.Rows.{records_laid, trailer_laid};
ghost use Rattle.sheet.specs.Private.{Kinds};

use rules::Refusal;
use sides::Side;

// Writes the records into a buffer that they fill, and returns the sum of their bytes.
fn lay(out: &mut [u8], side: Side, entries: &[u64]) -> u64
    requires { (length out.old ≡ 8 * length entries.now) × Kinds entries.now
        × (length entries.now < 2 ^ 29) }
    ensures { (out.new ≡ records_of (number_of side) entries.now)
        × (result ≡ sum (records_of (number_of side) entries.now)) × (result < 2 ^ 40) }
{
    crate::write_records(out, side, entries);
    let end = out.len();
    crate::total(&out[..end])
}

// For a host: writes the records of these entries to the front of a buffer. The numbers are how many records
// there are and the sum of their bytes, before and after; both 0 at first. A buffer of other than two numbers
// is refused as of a wrong length.
pub fn records(
    numbers: &mut [u64],
    out: &mut [u8],
    side: u32,
    entries: &[u64],
) -> Result<(), Refusal>
    ensures { (told result leaving numbers.new leaving out.new)
        ≡ records_laid side entries.now numbers.old out.old }
{
    if numbers.len() != 2 {
        return Err(Refusal::WrongLength);
    }
    let before = numbers[0];
    let passed = numbers[1] % 4294967296;
    let more = entries.len() as u64;
    if 536870911 < more || 536870911 - more < before {
        return Err(Refusal::SheetDistance);
    }
    let Some(named) = Side::of_number(side) else {
        return Err(Refusal::SheetSide);
    };
    if !crate::kinds_good(entries) {
        return Err(Refusal::SheetRecord);
    }
    let end = 8 * entries.len();
    if out.len() < end {
        return Err(Refusal::SheetNoRoom);
    }
    let sum = lay(&mut out[..end], named, entries);
    numbers[0] = before + more;
    numbers[1] = (passed + sum) % 4294967296;
    Ok(())
}

// For a host: writes the trailer of so many records, whose bytes have this sum, to the front of a buffer.
pub fn trailer(out: &mut [u8], side: u32, count: u64, sum: u64) -> Result<(), Refusal>
    ensures { (told result leaving out.new) ≡ trailer_laid side count sum out.old }
{
    if 536870911 < count {
        return Err(Refusal::SheetDistance);
    }
    let Some(named) = Side::of_number(side) else {
        return Err(Refusal::SheetSide);
    };
    if out.len() < 16 {
        return Err(Refusal::SheetNoRoom);
    }
    let bytes = crate::trailer_of(count as usize, named, sum);
    out[..16].copy_from_slice(&bytes);
    Ok(())
}
