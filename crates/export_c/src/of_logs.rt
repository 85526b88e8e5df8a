// The functions of crates/export/src/of_logs.rt for C: the same names and contracts.
// tools/make_export_c.sh makes this file.
ghost use Rattle.std.specs.Prelude.{◌≡◌, length};
ghost use Rattle.rules.specs.Leaf.{Leaf, ◌leaving◌};
ghost use Rattle.logs.specs.Log10.{log10_of, logs_of, LogsFits};

#[unsafe(no_mangle)]
pub extern "C" fn tuppence_log10(x: f32) -> f32
    ensures { result ≡ log10_of x }
{
    export::of_logs::tuppence_log10(x)
}

#[unsafe(no_mangle)]
pub extern "C" fn tuppence_logs(logs: &mut [f32], sums: &[f32]) -> u32
    ensures { Leaf (LogsFits (length logs.old) (length sums.now))
        (result leaving logs.new)
        (0 leaving logs_of sums.now)
        (5 leaving logs.old) }
{
    export::of_logs::tuppence_logs(logs, sums)
}
