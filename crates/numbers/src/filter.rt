// The high-pass filter of util.rs. It works in `f64` and rounds what it stores.
ghost use Rattle.std.specs.Prelude.{◌≡◌, Ok, Err, T, [], ◌∷◌, length};
ghost use Rattle.std.specs.Float.{binary32};
ghost use Rattle.std.specs.Float.Ieee.{fits};
ghost use Rattle.rules.specs.Leaf.{Leaf, ◌leaving◌};
ghost use Rattle.rules.specs.declared.refusal.Refusal.TheVariants.{WrongLength};
ghost use Rattle.numbers.specs.Filter.{memory_after, outputs};
ghost use Rattle.numbers.specs.Private.{memory_in};

use rules::Refusal;

// The coefficients of y[n] = x[n] + b0 * x[n-1] + b1 * x[n-2] - a0 * y[n-1] - a1 * y[n-2].
// Stays: the names are those of the formula, and the definition `filter_step` reads them. An array is no plainer.
#[derive(Clone, Copy)]
pub struct Biquad {
    pub a0: f32,
    pub a1: f32,
    pub b0: f32,
    pub b1: f32,
}

// What goes from one sample, and from one call, to the next; zeros before the first.
// Stays: the two are fed back in different ways, and other crates name them, so a pair in an array is no plainer.
#[derive(Clone, Copy)]
pub struct Memory {
    pub m0: f32,
    pub m1: f32,
}

// A memory within a call, each number an `f32` still: so a turn waits for no conversion of what the turn before it
// kept.
// Stays: a memory with its numbers' type as a parameter is no plainer, since every other crate means that of `f32`.
// Its two names are those of `Memory`.
#[derive(Clone, Copy)]
struct Kept {
    m0: f64,
    m1: f64,
}

// What a turn leaves.
#[derive(Clone, Copy)]
struct Turned {
    kept: Kept,
    y: f32,
}

impl Biquad {
    pub const BIQUAD_HP: Biquad = Biquad {
        a0: -1.99599,
        a1: 0.99600,
        b0: -2.0,
        b1: 1.0,
    };

    // Filters input into output, and gives the memory to go on with. Refused if their lengths differ.
    pub fn filter(
        self,
        output: &mut [f32],
        memory: Memory,
        input: &[f32],
    ) -> Result<Memory, Refusal>
        ensures { Leaf (length output.old ≡ length input.now)
            (result leaving output.new)
            (Ok (memory_after self memory input.now) leaving outputs self memory input.now)
            (Err WrongLength leaving output.old) }
    {
        if output.len() != input.len() {
            return Err(Refusal::WrongLength);
        }
        let mut kept = Kept {
            m0: wide(memory.m0),
            m1: wide(memory.m1),
        };
        for (i, x) in input.iter().enumerate() {
            let turned = self.turn(kept, *x);
            kept = turned.kept;
            output[i] = turned.y;
        }
        Ok(Memory {
            m0: crate::narrow(kept.m0),
            m1: crate::narrow(kept.m1),
        })
    }

    // The filter over one sample. What is fed back is `y64`, before it is rounded.
    #[tactic(auto, unfolding(crate::specs::Filter::filtered, crate::specs::Filter::filter_step))]
    fn turn(self, kept: Kept, x: f32) -> Turned
        ensures { (memory_in result.kept ≡ memory_after self (memory_in kept) (x ∷ []))
            × (result.y ∷ [] ≡ outputs self (memory_in kept) (x ∷ [])) }
    {
        let x64 = wide(x);
        let y64 = x64 + kept.m0;
        let m0 = kept.m1 + (wide(self.b0) * x64 - wide(self.a0) * y64);
        let m1 = wide(self.b1) * x64 - wide(self.a1) * y64;
        Turned {
            kept: Kept {
                m0: crate::shortened(m0),
                m1: crate::shortened(m1),
            },
            y: crate::narrow(y64),
        }
    }
}

// `x as f64`, a NaN too.
fn wide(x: f32) -> f64
    ensures { (result ≡ x) × T (fits binary32 result) }
{
    std::num::f32_to_f64_with_nan(x)
}
