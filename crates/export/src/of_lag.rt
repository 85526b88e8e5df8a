// lag: our own lag. Refusal 5: a slice has a wrong length.
#![tactic(auto, using(lag::proofs::Ranges::in_range_lem))]

ghost use Rattle.std.specs.Prelude.{[], ◌∷◌, length};
ghost use Rattle.rules.specs.Leaf.{Leaf, ◌leaving◌};
ghost use Rattle.lag.specs.Lag.{own_lag};
ghost use Rattle.export.specs.OfLag.{LagFits};

use rules::Refusal;

// Our own lag, an even number from 182 to 768. `place` has one place, for the lag, and `input_mem` has the last
// 1,728 filtered samples.
#[unsafe(no_mangle)]
pub extern "C" fn tuppence_lag(place: &mut [u32], input_mem: &[f32]) -> u32
    ensures { Leaf (LagFits (length place.old) (length input_mem.now))
        (result leaving place.new)
        (0 leaving own_lag input_mem.now ∷ [])
        (5 leaving place.old) }
{
    if place.len() != 1 {
        return Refusal::WrongLength.number();
    }
    match lag::lag_of(input_mem) {
        Ok(lag) => {
            place.copy_from_slice(&[lag as u32]);
            0
        }
        Err(refusal) => refusal.number(),
    }
}
