// The functions of crates/export/src/of_model.rt for C: the same names and contracts.
// tools/make_export_c.sh makes this file.
ghost use Rattle.std.specs.Prelude.{◌≡◌};
ghost use Rattle.rules.specs.Leaf.{◌leaving◌};
ghost use Rattle.model.specs.Model.{read_of};
ghost use Rattle.model.specs.Array.{choice_of};
ghost use Rattle.model.specs.Summary.{summary_of, array_told};

#[unsafe(no_mangle)]
pub extern "C" fn tuppence_model(numbers: &mut [u32], model: &[u8]) -> u32
    ensures { (result leaving numbers.new) ≡ summary_of model.now numbers.old }
{
    export::of_model::tuppence_model(numbers, model)
}

#[unsafe(no_mangle)]
pub extern "C" fn tuppence_model_array(
    place: &mut [u32],
    model: &[u8],
    layer: u32,
    array: u32,
) -> u32
    ensures { (result leaving place.new) ≡ array_told model.now layer array place.old }
{
    export::of_model::tuppence_model_array(place, model, layer, array)
}

#[unsafe(no_mangle)]
pub extern "C" fn tuppence_model_choose(trial: &[u8], house: &[u8]) -> u32
    ensures { result ≡ choice_of (read_of trial.now) (read_of house.now) }
{
    export::of_model::tuppence_model_choose(trial, house)
}
