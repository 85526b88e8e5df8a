// What a call answers: what it tells, or why it is refused.
ghost use Rattle.std.specs.Prelude.{◌≡◌};
ghost use Rattle.frame.specs.declared.answer.Cause.TheVariants.{Plain, Model};

use model::Misread;
use rules::Refusal;

// What a call that is done tells.
#[derive(Clone, Copy, Debug, PartialEq)]
pub enum Told {
    // No more than that it is done.
    Done,
    // Call 3: the frame is silent.
    Silent,
    // Call 3: the frame is heard.
    Heard { voice: f32, energy: f32 },
    // A desk's call 4: the frames so far, and the heard frames so far.
    Numbered { frames: u32, heard: u32 },
}

// Why a call is refused.
#[derive(Clone, Copy)]
pub enum Cause {
    // For one of its own refusals.
    Plain(Refusal),
    // With 7, because the model does not read.
    Model(Misread),
}

impl From<Refusal> for Cause {
    ghost from_gives = { λ refusal cause. cause ≡ Plain refusal };

    fn from(refusal: Refusal) -> Cause {
        Cause::Plain(refusal)
    }
}

impl From<Misread> for Cause {
    ghost from_gives = { λ misread cause. cause ≡ Model misread };

    fn from(misread: Misread) -> Cause {
        Cause::Model(misread)
    }
}
