// The functions of crates/export/src/of_lag.rt for C: the same names and contracts.
// tools/make_export_c.sh makes this file.
ghost use Rattle.std.specs.Prelude.{[], ◌∷◌, length};
ghost use Rattle.rules.specs.Leaf.{Leaf, ◌leaving◌};
ghost use Rattle.lag.specs.Lag.{own_lag};
ghost use Rattle.export.specs.OfLag.{LagFits};

#[unsafe(no_mangle)]
pub extern "C" fn tuppence_lag(place: &mut [u32], input_mem: &[f32]) -> u32
    ensures { Leaf (LagFits (length place.old) (length input_mem.now))
        (result leaving place.new)
        (0 leaving own_lag input_mem.now ∷ [])
        (5 leaving place.old) }
{
    export::of_lag::tuppence_lag(place, input_mem)
}
