// The numbers of util.rs, and what the language leaves out of IEEE 754. Each function has a result for every input, and
// its contract is an equation with a definition of `specs/`.
//     max, min, clamp, relu            two numbers compared
//     tansig_approx, sigmoid_approx    the activations
//     lists                            the activations of each number of a list, over a table that is lent
//     Biquad                           the high-pass filter, in filter.rt
//     narrow, sqrt                     `x as f32` of an `f64`, and the square root, from the bits
//
// Stays: `max`, `min`, `clamp`, `size_of` and `sign_of` are not std's. The definitions `larger`, `smaller`, `clamped`,
// `magnitude` and `sign_of` say which zero comes out and what a NaN gives, and they may not change.
#![tactic(auto)]

ghost use Rattle.std.specs.Prelude.{◌≡◌, ◌*◌, ◌^◌, ◌<◌, ◌≤◌, ◌||◌, pos};
ghost use Rattle.std.specs.Float.{binary32};
ghost use Rattle.std.specs.Float.Ieee.{lt, of_int};
ghost use Rattle.std.specs.Float.Ieee.Nearest.{closest};
ghost use Rattle.rules.specs.F32.{f32};
ghost use Rattle.numbers.specs.Narrowed.{narrowed};
ghost use Rattle.numbers.specs.Root.{twice_root, root};
ghost use Rattle.numbers.specs.Larger.{yields, larger, smaller, clamped, rectified};
ghost use Rattle.numbers.specs.Activations.{magnitude, sign_of, place, tansig_in, tansig_approx, sigmoid_approx};
ghost use Rattle.numbers.specs.Private.{UpToEight, overshoot, inside_of, place_in, entry_in, ended_by, followed};
ghost use Rattle.numbers.specs.Private.{Narrows};

pub mod filter;
pub mod lists;
pub mod table;

pub use filter::{Biquad, Memory};

// Whether a and b are zeros and a is -0, which alone goes to minus infinity below 1.
fn gives_way(a: f32, b: f32) -> bool
    ensures { result ≡ yields a b }
{
    a == 0.0 && b == 0.0 && 1.0 / a < 0.0
}

// Whether x is neither a zero nor a NaN.
fn off_zero(x: f32) -> bool
    ensures { result ≡ (lt x (f32 0) || lt (f32 0) x) }
{
    x < 0.0 || x > 0.0
}

// The larger of a and b: the other one where one is a NaN, and +0 of two zeros. Off zero it is one predictable test and
// a choice without a branch.
pub fn max(a: f32, b: f32) -> f32
    ensures { result ≡ larger a b }
{
    if off_zero(a) {
        return if a < b { b } else { a };
    }
    if a != a {
        return b;
    }
    if a < b {
        return b;
    }
    if gives_way(a, b) { b } else { a }
}

// The smaller of a and b: the other one where one is a NaN, and a where they compare equal.
pub fn min(a: f32, b: f32) -> f32
    ensures { result ≡ smaller a b }
{
    if a != a {
        return b;
    }
    if b < a { b } else { a }
}

// x brought between low and high. A NaN stays one.
pub fn clamp(x: f32, low: f32, high: f32) -> f32
    ensures { result ≡ clamped x low high }
{
    if x < low {
        return low;
    }
    if high < x { high } else { x }
}

// x where it is above 0, and +0 otherwise, at a NaN too.
pub fn relu(x: f32) -> f32
    ensures { result ≡ rectified x }
{
    max(x, 0.0)
}

// Without its sign, and the sign by itself.
fn size_of(x: f32) -> f32
    ensures { result ≡ magnitude x }
{
    if x < 0.0 { -x } else { x }
}

fn sign_of(x: f32) -> f32
    ensures { result ≡ sign_of x }
{
    if x < 0.0 { -1.0 } else { 1.0 }
}

// 1 where the other number is above it, and 0 otherwise.
fn too_far(t: f32, near: f32) -> f32
    ensures { result ≡ overshoot t near }
{
    if t < near { 1.0 } else { 0.0 }
}

// The table's place nearest to x, as a float: with 2^23 added a number keeps no digits behind the point. Without a
// branch, so that loops over it are vectorised.
fn place_of(x: f32) -> f32
    requires { UpToEight x }
    ensures { result ≡ of_int binary32 (pos (place x)) }
{
    let t = 0.5 + 25.0 * x;
    let near = t + 8388608.0 - 8388608.0;
    near - too_far(t, near)
}

// Without its sign where it lies between -8 and 8, and 0 elsewhere.
fn inside(x: f32) -> f32
    ensures { (result ≡ inside_of x) × UpToEight result }
{
    if x < 8.0 && x > -8.0 { size_of(x) } else { 0.0 }
}

// The number where x lies between -8 and 8, 1 or -1 elsewhere, and 0 for a NaN.
fn ended(x: f32, inner: f32) -> f32
    ensures { result ≡ ended_by x inner }
{
    if x != x {
        return 0.0;
    }
    if !(x < 8.0) {
        return 1.0;
    }
    if !(x > -8.0) {
        return -1.0;
    }
    inner
}

// The table's entry at the place of x.
fn entry_at(table: &[f32; 201], place: f32, x: f32) -> f32
    requires { place ≡ place_in x }
    ensures { result ≡ entry_in table.now x }
{
    let i = place as i32;
    table[i as usize]
}

// From the table's entry for x along the curve.
fn follow(x: f32, y: f32) -> f32
    ensures { result ≡ followed x y }
{
    let size = inside(x);
    let rest = size - 0.04 * place_of(size);
    let dy = 1.0 - y * y;
    ended(x, sign_of(x) * (y + rest * dy * (1.0 - y * rest)))
}

// `tansig_approx` over a lent table.
fn tansig_in(table: &[f32; 201], x: f32) -> f32
    ensures { result ≡ tansig_in table.now x }
{
    let place = place_of(inside(x));
    follow(x, entry_at(table, place, x))
}

// The hyperbolic tangent, nearly.
pub fn tansig_approx(x: f32) -> f32
    ensures { result ≡ tansig_approx x }
{
    let i = place_of(inside(x)) as i32;
    follow(x, table::entry(i as u32))
}

// The logistic curve, nearly.
#[tactic(auto, unfolding(crate::specs::Activations::sigmoid_in))]
pub fn sigmoid_approx(x: f32) -> f32
    ensures { result ≡ sigmoid_approx x }
{
    0.5 + 0.5 * tansig_approx(0.5 * x)
}

// Patterns of an `f64`: the leading digit's weight, 896 in the exponent's field, 2^-126, which is the
// smallest normal `f32`, 2^-150, half of the smallest, and 2^127. The last is the infinity of an `f32`.
const LEAD: u64 = 0x10_0000_0000_0000;

const MOVED: u64 = 0x3800_0000_0000_0000;

const NORMAL: u64 = 0x3810_0000_0000_0000;

const HALF_SMALLEST: u64 = 0x3690_0000_0000_0000;

const HALF_LARGEST: u64 = 0x47e0_0000_0000_0000;

const INFINITY: u64 = 0x7f80_0000;

// The pattern of 2^48: what is added to it counts sixteenths.
const SIXTEENTHS: u64 = 0x42f0_0000_0000_0000;

// x as an `f32`: the nearest one, and of two that are as near the one whose last digit is even. Past the largest it is
// an infinity, and a NaN stays one. The language can cast an `f64` that is an `f32` already; so x is rounded first.
pub fn narrow(x: f64) -> f32
    ensures { result ≡ narrowed x }
{
    if x != x {
        return 0.0 / 0.0;
    }
    shortened(x) as f32
}

// The same, as an `f64` still: from 2^-126 to below 2^127 the last 29 digits are rounded away where they stand.
pub(crate) fn shortened(x: f64) -> f64
    ensures { result ≡ narrowed x }
{
    if x != x {
        return 0.0 / 0.0;
    }
    let bits: u64 = f64::to_bits(x);
    let size: u64 = bits % 0x8000_0000_0000_0000;
    if NORMAL <= size && size < HALF_LARGEST {
        return f64::from_bits(rounded(bits, 29) * 0x2000_0000);
    }
    std::num::f32_to_f64_with_nan(by_parts(x))
}

// `narrow` of any x, by its sign and its size.
fn by_parts(x: f64) -> f32
    ensures { result ≡ narrowed x }
{
    if x != x {
        return 0.0 / 0.0;
    }
    let bits: u64 = f64::to_bits(x);
    let sign: u64 = bits >> 63;
    let size: u64 = bits % 0x8000_0000_0000_0000;
    f32::from_bits((sign * 0x8000_0000 + narrow_magnitude(size)) as u32)
}

// `narrow` on bit patterns without their sign. An `f32` counts its exponent from 896 less, and has
// 29 digits less: where it is normal, the pattern is that of the `f64`, moved down by 896 and rounded.
// Below that the digits, with the leading one, are shifted by what the exponent lacks.
fn narrow_magnitude(a: u64) -> u64
    requires { a ≤ 2047 * 2 ^ 52 }
    ensures { Narrows a result }
{
    if a >= NORMAL {
        return rounded(a - MOVED, 29).min(INFINITY);
    }
    if a >= HALF_SMALLEST {
        return rounded(LEAD + a % LEAD, 926 - (a >> 52));
    }
    0
}

// v / 2^k to the nearest whole number, and a tie to the even one.
fn rounded(v: u64, k: u64) -> u64
    requires { (v < 7 * 2 ^ 61) × (0 < k) × (k < 62) }
    ensures { result ≡ closest v (2 ^ k) }
{
    let half: u64 = 1 << (k - 1);
    (v + (half - 1) + (v >> k) % 2) >> k
}

// The square root of x, rounded to the nearest `f32`. -0 gives -0, and what is below zero a NaN.
pub fn sqrt(x: f32) -> f32
    ensures { result ≡ root binary32 x }
{
    if x > 0.0 {
        // x is `digits` * 2 ^ (`field` - 1075), since no `f32` is a subnormal `f64`
        let bits: u64 = f64::to_bits(x as f64);
        let field: u64 = bits >> 52;
        if field == 2047 {
            return x;
        }
        let digits: u64 = LEAD + bits % LEAD;
        // an even power of two is left
        let root: u64 = root_digits(digits * (2 - field % 2));
        return f32::from_bits(((field - 771) / 2 * 0x80_0000 + root) as u32);
    }
    if x == 0.0 { x } else { 0.0 / 0.0 }
}

// The 24 leading digits of the root of n, rounded: a guess that proves right, and else by the whole root.
fn root_digits(n: u64) -> u64
    requires { n < 2 ^ 54 }
    ensures { result ≡ closest (twice_root n) (2 ^ 4) }
{
    let near = guessed_digits(n);
    if near > 0 {
        let low = 8 * near - 4;
        let high = low + 8;
        if low * low < n && n < high * high {
            return near;
        }
    }
    rounded(twice_root(n), 4)
}

// An eighth of the root of an n from 2^52 to 2^54, to the nearest whole number: two of Newton's steps from a parabola.
// With 2^52 added, a number keeps no digits behind the point. Nothing else is promised of it.
fn guessed_digits(n: u64) -> u64
    ensures { result < 2 ^ 25 }
{
    let x = f64::from_bits(SIXTEENTHS + n / 4 % LEAD) - 281474976710656.0;
    let start = 4349954.1 + x * (6.27052e-8 - x * 6.69834e-23);
    let nearer = 0.5 * (start + x / start);
    let root = 0.5 * (nearer + x / nearer) + 4503599627370496.0;
    if root != root {
        return 0;
    }
    f64::to_bits(root) % 0x200_0000
}

// Twice the root of n, cut to a whole number, and 1 more where n is no square. The root is searched
// for: it is at least `r`, and below `r + gap`.
// Stays: the loop halves its gap and counts no index, so an iterator is no plainer.
fn twice_root(n: u64) -> u64
    requires { n < 2 ^ 54 }
    ensures { result ≡ twice_root n }
{
    let mut r: u64 = 0;
    let mut gap: u64 = 0x800_0000;
    while gap > 1 {
        let next: u64 = r + (gap - gap / 2);
        if next * next <= n {
            r = next;
        }
        gap = gap - gap / 2;
    }
    if r * r == n { 2 * r } else { 2 * r + 1 }
}
