// The three numbers that a reply gives for its frame: heard (1 or 0), voice, energy.
ghost use Rattle.std.specs.Prelude.{◌≡◌, [], ◌∷◌, ◌+◌, ◌*◌, ◌≤◌, length};
ghost use Rattle.rules.specs.F32.{zeros};
ghost use Rattle.frame.specs.Written.{from, over};
ghost use Rattle.frame.specs.Answer.{reply_told};
ghost use Rattle.desk.specs.Surface.{heard_of};
ghost use Rattle.whole.specs.Surface.{heard_told};

use frame::{Cause, Told};

#[derive(Clone, Copy)]
pub struct Three {
    pub heard: f32,
    pub voice: f32,
    pub energy: f32,
}

fn none() -> Three
    ensures { result.heard ∷ result.voice ∷ result.energy ∷ [] ≡ zeros 3 }
{
    Three {
        heard: 0.0,
        voice: 0.0,
        energy: 0.0,
    }
}

// The three numbers of an outcome. A refusal gives zeros, whatever its reason is.
pub fn three_of<E: Drop>(outcome: Result<Told, E>) -> Three
    ensures { result.heard ∷ result.voice ∷ result.energy ∷ [] ≡ heard_told outcome }
{
    match outcome {
        Ok(Told::Heard { voice, energy }) => Three {
            heard: 1.0,
            voice,
            energy,
        },
        Ok(Told::Done | Told::Silent | Told::Numbered { .. }) | Err(_) => none(),
    }
}

// The three answers of frame j.
pub(crate) fn tell(answers: &mut [f32], j: usize, told: Told)
    requires { 3 * j + 3 ≤ length answers.old }
    ensures { answers.new ≡ over (from (3 * j) (heard_of (reply_told told))) answers.old }
{
    let Three {
        heard,
        voice,
        energy,
    } = three_of::<Cause>(Ok(told));
    let start = 3 * j;
    answers[start] = heard;
    answers[start + 1] = voice;
    answers[start + 2] = energy;
}
