// A kept lag, or a kept period, is an f32 and may hold any: how it is read as a whole number.
ghost use Rattle.std.specs.Prelude.{◌≡◌, ◌≤◌};
ghost use Rattle.finder.specs.Kept.{lag_step, whole_lag};

// k where it is not above x, and else the lag so far.
fn nearer(x: f32, k: usize, lag: usize) -> usize
    requires { k ≤ 768 }
    ensures { result ≡ lag_step x k lag }
{
    if k as f32 <= x {
        return k;
    }
    lag
}

// The largest whole number of 0 to 768 that is not above x; 0 where there is none, and for a NaN.
//
// Stays: the loop counts the whole numbers that the rule speaks of, so no form is plainer.
pub fn whole_lag(x: f32) -> usize
    ensures { result ≡ whole_lag x }
{
    let mut lag = 0;
    for k in 1..769 {
        lag = nearer(x, k, lag);
    }
    lag
}
