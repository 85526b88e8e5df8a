// The records that a feed gives, 8 bytes for each frame.
ghost use Rattle.std.specs.Prelude.{◌≡◌, ◌+◌, ◌*◌, ◌≤◌, ◌<◌, ◌^◌, length, drop};
ghost use Rattle.sheet.specs.End.{from_four, good_record};
ghost use Rattle.recorder.specs.Recorder.{is_record, are_records};

#[tactic(auto, using(sheet::proofs::Fields::four_at_lem))]
fn number_at(records: &[u8], at: usize) -> u32
    requires { at + 4 ≤ length records.now }
    ensures { result ≡ from_four (drop at records.now) }
{
    u32::from_le_bytes([
        records[at],
        records[at + 1],
        records[at + 2],
        records[at + 3],
    ])
}

#[tactic(auto, using(sheet::proofs::Fields::good_at))]
fn is_good(records: &[u8], at: usize, side: u8) -> bool
    requires { at + 8 ≤ length records.now }
    ensures { result ≡ good_record side (drop at records.now) }
{
    records[at + 4] <= 1 && records[at + 5] == side && records[at + 6] == 0 && records[at + 7] == 0
}

// Whether the record at a place is that of the frame with this number, of this side.
#[tactic(auto, unfolding(crate::specs::Recorder::is_record))]
fn is_record(records: &[u8], at: usize, side: u8, number: u64) -> bool
    requires { at + 8 ≤ length records.now }
    ensures { result ≡ is_record side number (drop at records.now) }
{
    number_at(records, at) as u64 == number % 4294967296 && is_good(records, at, side)
}

// Whether so many records in front are those of frames in a row, the first of them with this number.
// Stays: the loop counts by hand, since a record's place and its frame's number are both made of the count.
pub(crate) fn are_records(records: &[u8], side: u8, number: u64, frames: usize) -> bool
    requires { (8 * frames ≤ length records.now) × (number < 2 ^ 33) }
    ensures { result ≡ are_records side number frames records.now }
{
    for i in 0..frames {
        if !is_record(records, 8 * i, side, number + i as u64) {
            return false;
        }
    }
    true
}
