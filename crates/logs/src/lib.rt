// Our own logarithm to base 10: the nearest f32 to the true logarithm, for every f32. With x = 2^e * m, and 1 / m near
// one of 33 centres,
//     log10(x) = e * log10(2) - log10(centre) + log10(1 + r),  r = m * centre - 1,
// in plain f64. What the two large additions lose is kept and added at the end. The last step corrects the one f32 at
// which rounding twice would show.
#![tactic(auto)]

ghost use Rattle.std.specs.Prelude.{◌≡◌, Ok, Err, length};
ghost use Rattle.rules.specs.Leaf.{Leaf, ◌leaving◌};
ghost use Rattle.rules.specs.F64.{◌-₆₄◌};
ghost use Rattle.rules.specs.declared.refusal.Refusal.TheVariants.{WrongLength};
ghost use Rattle.logs.specs.Log10.{series, lost_of, nudged, summed, log_of_bits, log10_of, logs_of, LogsFits};

pub mod table;

use rules::Refusal;

// In the bits of an f64: 1 in the field of the exponent.
const LEAD: u64 = 0x10_0000_0000_0000;

// The bits of 1.0.
const ONE: u64 = 0x3ff0_0000_0000_0000;

// The series of log10(1 + r), from r^2 on.
#[tactic(auto, unfolding(crate::specs::Log10::series))]
fn series_of(r: f64) -> f64
    ensures { result ≡ series r }
{
    let rest = table::SERIES_5 + r * (table::SERIES_6 + r * table::SERIES_7);
    r * r * (table::SERIES_2 + r * (table::SERIES_3 + r * (table::SERIES_4 + r * rest)))
}

// What rounding lost in s = hi + p.
#[tactic(auto, unfolding(crate::specs::Log10::lost_of))]
fn lost_of(hi: f64, p: f64, s: f64) -> f64
    ensures { result ≡ lost_of hi p s }
{
    let back = s - hi;
    (hi - (s - back)) + (p - back)
}

// If t = s + w is half way between two f32, moves it by one bit towards what it lost, so that it is then rounded to the
// right side. A NaN has no bits to read.
fn nudge(t: f64, s: f64, w: f64) -> f64
    ensures { result ≡ nudged t (w -₆₄ (t -₆₄ s)) }
{
    if t != t {
        return t;
    }
    let bits: u64 = f64::to_bits(t);
    if bits % 0x2000_0000 != 0x1000_0000 {
        return t;
    }
    let z = w - (t - s);
    if z == 0.0 {
        return t;
    }
    if (z > 0.0) == (t > 0.0) {
        return f64::from_bits(bits + 1);
    }
    f64::from_bits(bits - 1)
}

// hi + lo + log10(1 + r).
#[tactic(auto, unfolding(crate::specs::Log10::summed))]
fn sum_of(hi: f64, lo: f64, r: f64) -> f64
    ensures { result ≡ summed hi lo r }
{
    let p = table::SLOPE_HIGH * r;
    let s = hi + p;
    let w = lost_of(hi, p, s) + (table::SLOPE_LOW * r + (series_of(r) + lo));
    nudge(s + w, s, w)
}

// The logarithm of the number with these bits: a normal f64 above 0.
fn log_of_bits(bits: u64) -> f64
    ensures { result ≡ log_of_bits bits }
{
    let digits: u64 = bits % LEAD;
    let e = (bits >> 52) as f64 - 1023.0;
    let m = f64::from_bits(ONE + digits);
    let row = table::row_at((digits + 0x4000_0000_0000) >> 47);
    let hi = e * table::TWO_HIGH + row.high;
    let lo = e * table::TWO_LOW + row.low;
    sum_of(hi, lo, m * row.centre - 1.0)
}

// The logarithm to base 10. Both zeros give minus infinity, and a number below zero gives a NaN.
pub fn log10(x: f32) -> f32
    ensures { result ≡ log10_of x }
{
    if x > 0.0 {
        if x == 1.0 / 0.0 {
            return x;
        }
        return numbers::narrow(log_of_bits(f64::to_bits(x as f64)));
    }
    if x == 0.0 { -1.0 / 0.0 } else { 0.0 / 0.0 }
}

// The logarithms of the 22 sums. Another length of either is refused.
pub fn logs(out: &mut [f32], sums: &[f32]) -> Result<(), Refusal>
    ensures { Leaf (LogsFits (length out.old) (length sums.now))
        (result leaving out.new)
        (Ok tt leaving logs_of sums.now)
        (Err WrongLength leaving out.old) }
{
    if out.len() != 22 || sums.len() != 22 {
        return Err(Refusal::WrongLength);
    }
    for (i, log) in out.iter_mut().enumerate() {
        *log = log10(sums[i]);
    }
    Ok(())
}
