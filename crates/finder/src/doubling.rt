// `remove_doubling` of pitch.rs: whether a half, a third, down to a fifteenth of the period found fits as well.
// Stays: `2 ≤ k` and `k ≤ 15` are asked by shorten, second_place, carry, threshold_at and consider. k is multiplied,
// divided by and looked up with, and the definitions take it as a number, so a type for it is no plainer.
ghost use Rattle.std.specs.Prelude.{◌≡◌, ◌≤◌};
ghost use Rattle.finder.specs.Doubling.{pitch_gain, product_at, yy_lookup, shortened, second_check, second_place};
ghost use Rattle.finder.specs.Doubling.{continuity, threshold};
ghost use Rattle.finder.specs.Doubling.{preferred, shorter, explained, gain_of, period_at, remove_doubling};

use crate::{Pitch, search};

// `SECOND_CHECK` of pitch.rs.
const SECOND_CHECK: [usize; 16] = [0, 0, 3, 2, 3, 2, 5, 2, 3, 2, 3, 2, 5, 2, 3, 2];

// What each shorter period is held against: the period found, half of the last one, the last gain, the energy, and the
// gain at the period found.
// Stays: that `t0` is at most 383 is no fact of the struct, since specs/Doubling makes one of any `t0`, and may not
// change.
#[derive(Clone, Copy)]
pub struct Asked {
    // The period that the search found, halved: `t0` of the text.
    pub t0: usize,
    // Half of the last frame's period: `prev_period`.
    pub prev: usize,
    // The last frame's gain: `self.last_gain`.
    pub last: f32,
    // The energy of the last 480 numbers: `xx`.
    pub xx: f32,
    // The gain at `t0`: `g0`.
    pub g0: f32,
}

// The best so far: its correlation and energy, its period and its gain.
#[derive(Drop)]
pub struct Chosen {
    // Its correlation: `best_xy`.
    pub xy: f32,
    // Its energy: `best_yy`.
    pub yy: f32,
    // Its period, halved: `t`.
    pub t: usize,
    // Its gain: `g`.
    pub g: f32,
}

// `pitch_gain` of pitch.rs.
fn pitch_gain(xy: f32, xx: f32, yy: f32) -> f32
    ensures { result ≡ pitch_gain xy xx yy }
{
    xy / numbers::sqrt(1.0 + xx * yy)
}

// The product of the last 480 numbers with those t before.
fn product_at(x: &[f32; 864], t: usize) -> f32
    requires { t ≤ 384 }
    ensures { result ≡ product_at x.now t }
{
    pitch_search::inner_prod(&x[384..], &x[384 - t..], 480).unwrap()
}

// The energies of the 480 numbers that lie 0 to 384 back.
//
// Stays: the loop counts an index, which is part of sums of indexes, so an iterator is no plainer.
fn look_up(lookup: &mut [f32; 385], x: &[f32; 864], xx: f32)
    ensures { lookup.new ≡ yy_lookup x.now xx }
{
    lookup[0] = xx;
    let mut yy = xx;
    for i in 1..385 {
        yy = yy + (x[384 - i] * x[384 - i] - x[864 - i] * x[864 - i]);
        lookup[i] = numbers::max(yy, 0.0);
    }
}

#[tactic(auto, unfolding(crate::specs::Doubling::second_check))]
fn second_check() -> [usize; 16]
    ensures { result ≡ second_check }
{
    SECOND_CHECK
}

// The k-th part of t0, to the nearest whole number.
fn shorten(t0: usize, k: usize) -> usize
    requires { (t0 ≤ 383) × (2 ≤ k) × (k ≤ 15) }
    ensures { result ≡ shortened t0 k }
{
    (2 * t0 + k) / (2 * k)
}

// Where a period of t1 must show again.
fn second_place(t0: usize, t1: usize, k: usize) -> usize
    requires { (t0 ≤ 383) × (t1 ≤ 383) × (2 ≤ k) × (k ≤ 15) }
    ensures { result ≡ second_place t0 t1 k }
{
    if k == 2 {
        if t1 + t0 > 384 {
            return t0;
        }
        return t0 + t1;
    }
    (2 * second_check()[k] * t0 + k) / (2 * k)
}

// What the last gain is worth to a period near the last one.
fn carry(a: Asked, t1: usize, k: usize) -> f32
    requires { k ≤ 15 }
    ensures { result ≡ continuity a t1 k }
{
    let far = t1.abs_diff(a.prev);
    if far <= 1 {
        return a.last;
    }
    if far <= 2 && 5 * k * k < a.t0 {
        return a.last / 2.0;
    }
    0.0
}

// What the gain of a shorter period must pass: more where it is very short.
fn threshold_at(a: Asked, t1: usize, k: usize) -> f32
    requires { k ≤ 15 }
    ensures { result ≡ threshold a t1 k }
{
    let cont = carry(a, t1, k);
    if t1 < 90 {
        return numbers::max(0.85 * a.g0 - cont, 0.4);
    }
    if t1 < 60 {
        return numbers::max(0.9 * a.g0 - cont, 0.5);
    }
    numbers::max(0.7 * a.g0 - cont, 0.3)
}

// The better of a period of t1 and the best so far.
#[tactic(auto, using(crate::proofs::Ranges::second_small))]
fn consider(
    x: &[f32; 864],
    lookup: &[f32; 385],
    a: Asked,
    t1: usize,
    k: usize,
    best: Chosen,
) -> Chosen
    requires { (a.t0 ≤ 383) × (t1 ≤ 383) × (2 ≤ k) × (k ≤ 15) }
    ensures { result ≡ preferred x.now lookup.now a t1 k best }
{
    let t1b = second_place(a.t0, t1, k);
    let xy = (product_at(x, t1) + product_at(x, t1b)) / 2.0;
    let yy = (lookup[t1] + lookup[t1b]) / 2.0;
    let g1 = pitch_gain(xy, a.xx, yy);
    if g1 > threshold_at(a, t1, k) {
        return Chosen {
            xy,
            yy,
            t: t1,
            g: g1,
        };
    }
    best
}

// The best of the period found and its parts, down to 30.
//
// Stays: the loop counts the parts of the period, which are numbers of the rule, so an iterator is no plainer.
fn try_shorter(x: &[f32; 864], lookup: &[f32; 385], a: Asked, start: Chosen) -> Chosen
    requires { a.t0 ≤ 383 }
    ensures { result ≡ shorter x.now lookup.now a start }
{
    let mut best = start;
    for i in 0..14 {
        let t1 = shorten(a.t0, i + 2);
        if t1 < 30 {
            return best;
        }
        best = consider(x, lookup, a, t1, i + 2, best);
    }
    best
}

// The share of the energy that the correlation explains.
fn explain(best_xy: f32, best_yy: f32) -> f32
    ensures { result ≡ explained best_xy best_yy }
{
    if best_yy <= best_xy {
        return 1.0;
    }
    best_xy / (best_yy + 1.0)
}

fn gain_of(best: Chosen) -> f32
    ensures { result ≡ gain_of best }
{
    let best_xy = numbers::max(best.xy, 0.0);
    numbers::min(explain(best_xy, best.yy), best.g)
}

// Twice the period t, one more or less where the products beside it lean, and 60 at the least.
fn period_at(x: &[f32; 864], t: usize) -> usize
    requires { (30 ≤ t) × (t ≤ 383) }
    ensures { result ≡ period_at x.now t }
{
    let period = 2 * t + search::lean(product_at(x, t - 1), product_at(x, t), product_at(x, t + 1))
        - 1;
    period.max(60)
}

// The period and the gain, for a place of the search.
pub(crate) fn remove_doubling(
    x: &[f32; 864],
    pitch_idx: usize,
    last_period: usize,
    last_gain: f32,
) -> Pitch
    requires { 60 ≤ pitch_idx }
    ensures { result ≡ remove_doubling x.now pitch_idx last_period last_gain }
{
    let t0 = (pitch_idx / 2).min(383);
    let xx = product_at(x, 0);
    let xy = product_at(x, t0);
    let mut lookup = [0.0f32; 385];
    look_up(&mut lookup, x, xx);
    let yy = lookup[t0];
    let g0 = pitch_gain(xy, xx, yy);
    let a = Asked {
        t0,
        prev: last_period / 2,
        last: last_gain,
        xx,
        g0,
    };
    let start = Chosen {
        xy,
        yy,
        t: t0,
        g: g0,
    };
    let best = try_shorter(x, &lookup, a, start);
    Pitch {
        period: period_at(x, best.t),
        gain: gain_of(best),
    }
}
