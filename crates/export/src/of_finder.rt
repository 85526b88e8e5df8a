// finder: nnnoiseless's pitch finder. Refusal 5: a slice has a wrong length.
#![tactic(auto, using(finder::proofs::Ranges::period_in_range, rules::proofs::Numbers::casts))]

ghost use Rattle.std.specs.Prelude.{[], ◌∷◌, length};
ghost use Rattle.rules.specs.Leaf.{Leaf, ◌leaving◌};
ghost use Rattle.export.specs.OfFinder.{FindFits, found_after, kept_numbers};

use rules::Refusal;

// `numbers` has two places, the last period and the last gain, and gets the new ones. `place` has one place, for the
// period, 60 to 767. `input_mem` has the last 1,728 filtered samples.
#[unsafe(no_mangle)]
pub extern "C" fn tuppence_find(numbers: &mut [f32], place: &mut [u32], input_mem: &[f32]) -> u32
    ensures { Leaf (FindFits (length numbers.old) (length place.old)
        (length input_mem.now))
        (result leaving numbers.new leaving place.new)
        (0 leaving kept_numbers (found_after numbers.old input_mem.now)
        leaving (found_after numbers.old input_mem.now).period ∷ [])
        (5 leaving numbers.old leaving place.old) }
{
    if numbers.len() != 2 || place.len() != 1 {
        return Refusal::WrongLength.number();
    }
    match finder::find(numbers[0], numbers[1], input_mem) {
        Ok(found) => {
            numbers.copy_from_slice(&[found.period as f32, found.gain]);
            place.copy_from_slice(&[found.period as u32]);
            0
        }
        Err(refusal) => refusal.number(),
    }
}
