// model: what a file reads as, in numbers. A refusal r, 11 to 22, of layer l is r + 65,536 l; 5 is a wrong length.
ghost use Rattle.std.specs.Prelude.{◌≡◌};
ghost use Rattle.rules.specs.Leaf.{◌leaving◌};
ghost use Rattle.rules.specs.Refusal.{refusal_number};
ghost use Rattle.model.specs.Model.{read_of};
ghost use Rattle.model.specs.Array.{choice_of};
ghost use Rattle.model.specs.Summary.{summary_of, array_told};
ghost use Rattle.desk.specs.Surface.{seven_of};

use model::{Misread, told};

// `numbers` has thirty places: six times inputs, neurons, activation, offset and length. `model` is a file's bytes.
#[unsafe(no_mangle)]
pub extern "C" fn tuppence_model(numbers: &mut [u32], model: &[u8]) -> u32
    ensures { (result leaving numbers.new) ≡ summary_of model.now numbers.old }
{
    told(model::summary(numbers, model))
}

// Where an array of a model is. `place` has two numbers: the place of the array's first byte in `model`, and how many
// bytes it has. `layer` is 0 to 5, and `array` 0 for the input weights, 1 for the recurrent ones, 2 for the biases. An
// array that the file does not have is told as 0 bytes.
#[unsafe(no_mangle)]
pub extern "C" fn tuppence_model_array(
    place: &mut [u32],
    model: &[u8],
    layer: u32,
    array: u32,
) -> u32
    ensures { (result leaving place.new) ≡ array_told model.now layer array place.old }
{
    told(model::array_numbers(place, model, layer as usize, array as usize))
}

// Which of two model files is taken: 0 is `trial`, if it reads; 1 is `house`, if only that reads; 2 is neither.
#[unsafe(no_mangle)]
pub extern "C" fn tuppence_model_choose(trial: &[u8], house: &[u8]) -> u32
    ensures { result ≡ choice_of (read_of trial.now) (read_of house.now) }
{
    model::choice(trial, house).number()
}

// Refusal 7 of the others, with the number and the layer of a model that does not read.
#[tactic(auto, using(model::proofs::Numbers::number_in_range))]
pub(crate) fn seven(misread: Misread) -> u32
    ensures { result ≡ seven_of (refusal_number misread.refusal) misread.layer }
{
    7 + 256 * misread.refusal.number() + 65536 * (misread.layer as u32)
}
