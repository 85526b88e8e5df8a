// Which samples a call accepts (request 05): -32768 to 32767.
#![tactic(auto)]

ghost use Rattle.std.specs.Prelude.{◌≡◌};
ghost use Rattle.samples.specs.Samples.{good};

const LOWEST: f32 = -32768.0;

const HIGHEST: f32 = 32767.0;

// Whether every sample is from the lowest to the highest. NaN is neither below nor above, so what is asked is whether
// it lies between.
// All samples are looked at, and nothing is returned early: so four or more are compared at a time.
pub fn all_good(samples: &[f32]) -> bool
    ensures { result ≡ good samples.now }
{
    let mut so_far = true;
    for x in samples {
        so_far = so_far & ((LOWEST <= *x) & (*x <= HIGHEST));
    }
    so_far
}
