// What comes out: bytes, and records of the side sheet.
// Stays: the side as a number of at most 1. The writer of the sheet takes a number, so that a side is turned back into
// one here, which is no plainer.
ghost use Rattle.std.specs.Prelude.{◌≡◌, true, ◌*◌, ◌≤◌, length};
ghost use Rattle.rules.specs.F32.{at, part};
ghost use Rattle.rules.specs.Tab.{tab};
ghost use Rattle.pcm.specs.Pcm.{packed};
ghost use Rattle.sheet.specs.Sheet.{records_of};
ghost use Rattle.sheet.specs.Written.{known_kinds};
ghost use Rattle.frame.specs.Written.{at_front};
ghost use Rattle.feed.specs.Feed.{frame_entry};

fn entry_of(frame: u32, j: usize, heard: f32) -> u64
    requires { j ≤ 9 }
    ensures { result ≡ frame_entry frame j heard }
{
    let number = (frame as u64 + j as u64) % 0x1_0000_0000;
    if heard == 0.0 {
        return number;
    }
    number + 0x1_0000_0000
}

// An entry for each place, from a frame on: three answers of each are there.
fn note(entries: &mut [u64], frame: u32, answers: &[f32])
    requires { (length entries.old ≤ 9) × (3 * length entries.old ≤ length answers.now) }
    ensures { entries.new
        ≡ tab (length entries.old) (λ j. frame_entry frame j (at answers.now (3 * j))) }
{
    for (j, entry) in entries.iter_mut().enumerate() {
        *entry = entry_of(frame, j, answers[3 * j]);
    }
}

// The records of these entries, into the front of a buffer.
fn note_down(records: &mut [u8], side: u32, entries: &[u64])
    requires { (side ≤ 1) × (length entries.now ≤ 9) × (8 * length entries.now ≤ length records.old)
        × (known_kinds entries.now ≡ true) }
    ensures { records.new ≡ at_front (records_of side entries.now) records.old }
{
    let mut counted = [0u64; 2];
    sheet::parts::records(&mut counted, records, side, entries).unwrap();
}

// The records of so many frames, from a frame on: three answers of each are there.
fn note_each(records: &mut [u8], side: u32, frame: u32, answers: &[f32], frames: usize)
    requires { (side ≤ 1) × (frames ≤ 9) × (8 * frames ≤ length records.old)
        × (3 * frames ≤ length answers.now) }
    ensures { records.new
        ≡ at_front (records_of side (tab frames (λ j. frame_entry frame j (at answers.now (3 * j)))))
        records.old }
{
    let mut places = [0u64; 9];
    let entries = &mut places[0..frames];
    note(entries, frame, answers);
    note_down(records, side, &entries[..]);
}

// The bytes of so many frames, and their records.
pub(crate) fn hand_out(
    cleaned: &mut [u8],
    records: &mut [u8],
    out: &[f32],
    answers: &[f32],
    side: u32,
    frame: u32,
    frames: usize,
)
    requires { (frames ≤ 9) × (960 * frames ≤ length cleaned.old) × (8 * frames ≤ length records.old)
        × (480 * frames ≤ length out.now) × (3 * frames ≤ length answers.now) × (side ≤ 1) }
    ensures { (cleaned.new
        ≡ at_front (packed (part 0 (480 * frames) out.now)) cleaned.old)
        × (records.new
        ≡ at_front (records_of side (tab frames (λ j. frame_entry frame j (at answers.now (3 * j)))))
        records.old) }
{
    let bytes = 960 * frames;
    let numbers = 480 * frames;
    pcm::pack(&mut cleaned[0..bytes], &out[0..numbers]).unwrap();
    note_each(records, side, frame, answers, frames);
}
