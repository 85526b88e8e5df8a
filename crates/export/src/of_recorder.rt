// recorder: a recording while it is being made. Which of a feed's bytes belong to it, and its head, seal and trailer.
// Refusals: 5 a wrong length; 53 no side; 67 longer than a recording can be; 68 not the records of the next frames; 69
// no audio, or more than a recording has; 70 not as many records as the audio takes; 71 no place for a cut.
ghost use Rattle.std.specs.Prelude.{◌≡◌};
ghost use Rattle.rules.specs.Leaf.{◌leaving◌};
ghost use Rattle.recorder.specs.Numbers.{begun_laid, more_laid, closing_laid, next_laid, finish_laid};

use rules::told;

// A recording begins. `numbers` has eight places; what they held is overwritten. `side` is 0 for left and 1 for right;
// it `began` so many seconds after 1970 began, 0 if nobody knows; its `first` frame has this number, 0 after an
// opening.
#[unsafe(no_mangle)]
pub extern "C" fn tuppence_recorder_begin(
    numbers: &mut [u64],
    side: u32,
    began: u64,
    first: u32,
) -> u32
    ensures { (result leaving numbers.new) ≡ begun_laid side began first numbers.old }
{
    told(recorder::begin(numbers, side, began, first))
}

// What a feed gave. `numbers` has eight places, as they were left. The feed took in `taken` samples of the stream, 0 if
// it was silence; it gave the bytes `cleaned`, 960 for each frame, and the `records`, 8 for each. `part` has two
// places: where the bytes begin that belong to the recording, and how many they are. A host writes these, and all
// records.
#[unsafe(no_mangle)]
pub extern "C" fn tuppence_recorder_more(
    numbers: &mut [u64],
    part: &mut [u64],
    taken: u32,
    cleaned: &[u8],
    records: &[u8],
) -> u32
    ensures { (result leaving numbers.new leaving part.new)
        ≡ more_laid taken cleaned.now records.now numbers.old part.old }
{
    told(recorder::more(numbers, part, taken, cleaned, records))
}

// `silence` has one place: how many samples of silence the bench must still be fed after the stream's last sample, so
// that all that was taken in comes out. `numbers` has eight places, as they were left.
#[unsafe(no_mangle)]
pub extern "C" fn tuppence_recorder_closing(silence: &mut [u64], numbers: &[u64]) -> u32
    ensures { (result leaving silence.new) ≡ closing_laid numbers.now silence.old }
{
    told(recorder::closing(silence, numbers))
}

// The bench goes on in the next recording, which `began` then. `numbers` has eight places, as they were left after a
// whole frame; they become those of the next recording. The recording that ends is finished first.
#[unsafe(no_mangle)]
pub extern "C" fn tuppence_recorder_next(numbers: &mut [u64], began: u64) -> u32
    ensures { (result leaving numbers.new) ≡ next_laid began numbers.old }
{
    told(recorder::next(numbers, began))
}

// The recording ends here. `numbers` has eight places, as they were left. `head` has 76 bytes, which are before the
// audio; `chunk` has 32, which are between the audio and the records; `trailer` has 16, which are after the records.
#[unsafe(no_mangle)]
pub extern "C" fn tuppence_recorder_finish(
    head: &mut [u8],
    chunk: &mut [u8],
    trailer: &mut [u8],
    numbers: &[u64],
) -> u32
    ensures { (result leaving head.new leaving chunk.new leaving trailer.new)
        ≡ finish_laid numbers.now head.old chunk.old trailer.old }
{
    told(recorder::finish(head, chunk, trailer, numbers))
}
