// logs: our own logarithm. Refusal 5: a slice has a wrong length.
ghost use Rattle.std.specs.Prelude.{◌≡◌, length};
ghost use Rattle.rules.specs.Leaf.{Leaf, ◌leaving◌};
ghost use Rattle.logs.specs.Log10.{log10_of, logs_of, LogsFits};

use rules::told;

// The logarithm to base 10, rounded to the nearest f32.
#[unsafe(no_mangle)]
pub extern "C" fn tuppence_log10(x: f32) -> f32
    ensures { result ≡ log10_of x }
{
    logs::log10(x)
}

// The logarithms of 22 numbers. `logs` and `sums` have 22 each.
#[unsafe(no_mangle)]
pub extern "C" fn tuppence_logs(logs: &mut [f32], sums: &[f32]) -> u32
    ensures { Leaf (LogsFits (length logs.old) (length sums.now))
        (result leaving logs.new)
        (0 leaving logs_of sums.now)
        (5 leaving logs.old) }
{
    told(logs::logs(logs, sums))
}
