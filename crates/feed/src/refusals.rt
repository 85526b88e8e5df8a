// What a block is refused for.
ghost use Rattle.std.specs.Prelude.{◌≡◌};
ghost use Rattle.feed.specs.Feed.{samples_in};
ghost use Rattle.feed.specs.Private.{fitting};

// How many samples of a channel there are in so many bytes; none where they are no block.
#[tactic(auto, unfolding(crate::specs::Feed::samples_in))]
pub(crate) fn samples_in(bytes: usize, format: u32, channels: usize, channel: usize) -> usize
    ensures { result ≡ samples_in bytes format channels channel }
{
    let width = pcm::width_of(format);
    if width == 0 || channels > 65535 || channel >= channels {
        return 0;
    }
    let block = channels * width;
    if bytes % block != 0 {
        return 0;
    }
    bytes / block
}

// Whether so many samples are a piece, and there is room for what the frames that they complete hand out.
#[tactic(auto, using(whole::proofs::Accepted::fits_sizes))]
pub(crate) fn fits(waiting: usize, n: usize, cleaned: usize, records: usize, answers: usize) -> bool
    ensures { result ≡ fitting waiting n cleaned records answers }
{
    if !pieces::piece_fits(waiting, n, 4320, 22) {
        return false;
    }
    let frames = (waiting + n) / 480;
    960 * frames <= cleaned && 8 * frames <= records && 3 * frames <= answers
}
