// `pitch_search` of pitch.rs: a coarse search over every second number, a finer one around its two best, and an
// interpolation.
ghost use Rattle.std.specs.Prelude.{◌≡◌, ◌*◌, ◌<◌, ◌≤◌, Ok, length};
ghost use Rattle.finder.specs.Search.{leaning, every_second, coarse, peak_at, fine_at, fine, interpolated};
ghost use Rattle.finder.specs.Search.{pitch_search};

use pitch_search::Pitches;

// 2 where the peak of a, b and c in a row leans to c, 0 where it leans to a, and else 1.
// Stays: a number, since it is added to a place. An enum would be turned into one each time, and is no plainer.
#[tactic(auto, unfolding(crate::specs::Search::leaning))]
pub(crate) fn lean(a: f32, b: f32, c: f32) -> usize
    ensures { result ≡ leaning a b c }
{
    if c - a > 0.7 * (b - a) {
        return 2;
    }
    if a - c > 0.7 * (b - c) {
        return 0;
    }
    1
}

// Every second number of xs, as many as out has places.
fn every_second(out: &mut [f32], xs: &[f32])
    requires { 2 * length out.old ≤ length xs.now }
    ensures { out.new ≡ every_second (length out.old) xs.now }
{
    for (j, y) in out.iter_mut().enumerate() {
        *y = xs[2 * j];
    }
}

// The two best of 147 lags over every second number.
fn coarse_pitches(buf: &[f32; 864]) -> Pitches
    ensures { Ok result ≡ coarse buf.now }
{
    let mut x_lp4 = [0.0f32; 240];
    every_second(&mut x_lp4, &buf[384..]);
    let mut y_lp4 = [0.0f32; 387];
    every_second(&mut y_lp4, buf);
    let mut xcorr = [0.0f32; 147];
    pitch::pitch_xcorr(&x_lp4, &y_lp4, &mut xcorr).unwrap();
    pitch_search::find_best_pitch(&xcorr, &y_lp4, 240).unwrap()
}

// The correlation at lag i, -1 at the least.
fn peak_at(buf: &[f32; 864], i: usize) -> f32
    requires { i < 294 }
    ensures { result ≡ peak_at buf.now i }
{
    let product = pitch_search::inner_prod(&buf[384..], &buf[i..], 480).unwrap();
    numbers::max(product, -1.0)
}

// The same near one of the two best of the coarse search, and else 0.
fn correlate(buf: &[f32; 864], near: Pitches, i: usize) -> f32
    requires { (near.first < 147) × (near.second < 147) × (i < 294) }
    ensures { result ≡ fine_at buf.now near.first near.second i }
{
    if i.abs_diff(2 * near.first) <= 2 || i.abs_diff(2 * near.second) <= 2 {
        return peak_at(buf, i);
    }
    0.0
}

fn correlations(xcorr: &mut [f32; 294], buf: &[f32; 864], near: Pitches)
    requires { (near.first < 147) × (near.second < 147) }
    ensures { xcorr.new ≡ fine buf.now near.first near.second }
{
    for (i, at_lag) in xcorr.iter_mut().enumerate() {
        *at_lag = correlate(buf, near, i);
    }
}

// Twice the best lag, and one more or less where the correlations beside it lean.
fn interpolate(xcorr: &[f32; 294], best: usize) -> usize
    requires { best < 294 }
    ensures { result ≡ interpolated xcorr.now best }
{
    if best == 0 || best >= 293 {
        return 2 * best;
    }
    2 * best + 1 - lean(xcorr[best - 1], xcorr[best], xcorr[best + 1])
}

// The place of the best lag, 0 to 586.
pub(crate) fn search(buf: &[f32; 864]) -> usize
    ensures { result ≡ pitch_search buf.now }
{
    let mut xcorr = [0.0f32; 294];
    correlations(&mut xcorr, buf, coarse_pitches(buf));
    let fine_pitches = pitch_search::find_best_pitch(&xcorr, buf, 480).unwrap();
    interpolate(&xcorr, fine_pitches.first)
}
