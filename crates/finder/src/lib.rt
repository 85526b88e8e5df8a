// `PitchFinder::process` of pitch.rs: the period and the gain of the 1,728 numbers that a bench remembers of its input.
// What the Rust's finder keeps from frame to frame, the last period and the last gain, goes in and comes out.
//     kept        a kept lag or period as a whole number
//     search      `pitch_search`
//     doubling    `remove_doubling` and `pitch_gain`
#![tactic(auto)]

ghost use Rattle.std.specs.Prelude.{◌≡◌, Ok, Err, length};
ghost use Rattle.rules.specs.Leaf.{Leaf};
ghost use Rattle.rules.specs.declared.refusal.Refusal.TheVariants.{WrongLength};
ghost use Rattle.finder.specs.Finder.{find};

pub mod doubling;
pub mod kept;
mod search;

use rules::Refusal;

// A period in samples and its gain.
#[derive(Clone, Copy)]
pub struct Pitch {
    pub period: usize,
    pub gain: f32,
}

// The period and the gain of the 1,728 numbers, after the last period and the last gain.
pub fn find(last_period: f32, last_gain: f32, input_mem: &[f32]) -> Result<Pitch, Refusal>
    ensures { Leaf (length input_mem.now ≡ 1728)
        result (Ok (find last_period last_gain input_mem.now)) (Err WrongLength) }
{
    let mut pitch_buf = [0.0f32; 864];
    pitch::pitch_downsample(input_mem, &mut pitch_buf)?;
    let pitch_idx = 768 - search::search(&pitch_buf);
    Ok(doubling::remove_doubling(
        &pitch_buf,
        pitch_idx,
        kept::whole_lag(last_period),
        last_gain,
    ))
}
