// Call 1: `shift_and_filter_input` of features.rs, and the window of `transform_input`.
ghost use Rattle.std.specs.Prelude.{◌≡◌, ◌+◌, length, take};
ghost use Rattle.rules.specs.F32.{at};
ghost use Rattle.rules.specs.Place.{get};
ghost use Rattle.rules.specs.Tab.{tab};
ghost use Rattle.numbers.specs.Filter.{high_pass, memory_after, outputs};
ghost use Rattle.bands.specs.Windowed.{windowed};
ghost use Rattle.frame.specs.Frame.{shifted, recent};

use numbers::{Biquad, Memory};

// Moves the input memory down by a frame, dropping its oldest 480 numbers.
fn shift(mem: &mut [f32])
    requires { length mem.old ≡ 1728 }
    ensures { take 1248 mem.new ≡ tab 1248 (λ i. at mem.old (i + 480)) }
{
    mem.copy_within(480..1728, 0);
}

// Takes 480 samples into the input memory, filtered, and writes its last 960 numbers, windowed. Returns the
// memories of the filter.
pub(crate) fn take_in(
    mem: &mut [f32],
    memory: Memory,
    samples: &[f32; 480],
    window: &mut [f32; 960],
) -> Memory
    requires { length mem.old ≡ 1728 }
    ensures value { result ≡ memory_after high_pass memory samples.now }
    ensures mem_after { mem.new ≡ shifted mem.old (outputs high_pass memory samples.now) }
    ensures window_after { window.new
        ≡ windowed (get (recent 0) (shifted mem.old (outputs high_pass memory samples.now))) }
{
    shift(mem);
    let next = Biquad::BIQUAD_HP
        .filter(&mut mem[1248..1728], memory, samples)
        .unwrap();
    bands::apply_window(window, &mem[768..1728]).unwrap();
    next
}
