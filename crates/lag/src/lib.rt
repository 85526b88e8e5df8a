// The lag that a bench finds by itself (request 04): the first pitch of `find_best_pitch` over a plain correlation. The
// rule is our own: it is simpler than `PitchFinder::process` of nnnoiseless.
#![tactic(auto)]

ghost use Rattle.std.specs.Prelude.{◌≡◌, Ok, Err, length};
ghost use Rattle.rules.specs.Leaf.{Leaf};
ghost use Rattle.rules.specs.declared.refusal.Refusal.TheVariants.{WrongLength};
ghost use Rattle.lag.specs.Lag.{first_pitch, own_lag};

use rules::Refusal;

// The best of 294 offsets, at each of which the newest 480 numbers are correlated with as many older ones.
fn first_pitch(low: &[f32; 864]) -> usize
    ensures { result ≡ first_pitch low.now }
{
    let mut xcorr = [0.0f32; 294];
    pitch::pitch_xcorr(&low[384..864], low, &mut xcorr).unwrap();
    let pitches = pitch_search::find_best_pitch(&xcorr, low, 480).unwrap();
    pitches.first
}

// The lag of the 1,728 samples that a bench remembers of its input. Refuses another length.
pub fn lag_of(input_mem: &[f32]) -> Result<usize, Refusal>
    ensures { Leaf (length input_mem.now ≡ 1728) result (Ok (own_lag input_mem.now)) (Err WrongLength) }
{
    let mut low = [0.0f32; 864];
    pitch::pitch_downsample(input_mem, &mut low)?;
    Ok(768 - 2 * first_pitch(&low))
}
