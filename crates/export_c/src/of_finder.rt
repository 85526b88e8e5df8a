// The functions of crates/export/src/of_finder.rt for C: the same names and contracts.
// tools/make_export_c.sh makes this file.
ghost use Rattle.std.specs.Prelude.{[], ◌∷◌, length};
ghost use Rattle.rules.specs.Leaf.{Leaf, ◌leaving◌};
ghost use Rattle.export.specs.OfFinder.{FindFits, found_after, kept_numbers};

#[unsafe(no_mangle)]
pub extern "C" fn tuppence_find(numbers: &mut [f32], place: &mut [u32], input_mem: &[f32]) -> u32
    ensures { Leaf (FindFits (length numbers.old) (length place.old)
        (length input_mem.now))
        (result leaving numbers.new leaving place.new)
        (0 leaving kept_numbers (found_after numbers.old input_mem.now)
        leaving (found_after numbers.old input_mem.now).period ∷ [])
        (5 leaving numbers.old leaving place.old) }
{
    export::of_finder::tuppence_find(numbers, place, input_mem)
}
