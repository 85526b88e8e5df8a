// The search of pitch.rs: the inner product of two slices, and the best two of some lags. A public function refuses
// with `WrongLength` exactly if its lengths do not fit; its core does the work.
#![tactic(auto)]

ghost use Rattle.std.specs.Prelude.{◌≡◌, ◌+◌, ◌<◌, ◌≤◌, Ok, Err, length};
ghost use Rattle.rules.specs.Leaf.{Leaf};
ghost use Rattle.rules.specs.declared.refusal.Refusal.TheVariants.{WrongLength};
ghost use Rattle.pitch_search.specs.Best.{start_norm, considered, slid, best, best_of, BestFits};
ghost use Rattle.pitch_search.specs.Inner.{inner_prod, InnerFits};

use rules::Refusal;

// `inner_prod` for lengths that fit.
fn inner_prod_core(xs: &[f32], ys: &[f32], n: usize) -> f32
    requires { InnerFits (length xs.now) (length ys.now) n }
    ensures { result ≡ inner_prod xs.now ys.now n }
{
    let mut sum0 = 0.0f32;
    let mut sum1 = 0.0f32;
    let mut sum2 = 0.0f32;
    let mut sum3 = 0.0f32;
    // Stays: both loops read two slices at one place, the first one four places a turn, so an iterator is no plainer.
    for k in 0..n / 4 {
        let i = 4 * k;
        sum0 = sum0 + xs[i] * ys[i];
        sum1 = sum1 + xs[i + 1] * ys[i + 1];
        sum2 = sum2 + xs[i + 2] * ys[i + 2];
        sum3 = sum3 + xs[i + 3] * ys[i + 3];
    }
    let mut sum = sum0 + sum1 + sum2 + sum3;
    for j in n - n % 4..n {
        sum = sum + xs[j] * ys[j];
    }
    sum
}

// The inner product of xs[..n] and ys[..n].
pub fn inner_prod(xs: &[f32], ys: &[f32], n: usize) -> Result<f32, Refusal>
    ensures { Leaf (InnerFits (length xs.now) (length ys.now) n)
        result (Ok (inner_prod xs.now ys.now n)) (Err WrongLength) }
{
    if xs.len() < n || ys.len() < n {
        return Err(Refusal::WrongLength);
    }
    Ok(inner_prod_core(xs, ys, n))
}

// The energy at lag 0: 1.0 and the squares of ys[..len].
fn norm(ys: &[f32], len: usize) -> f32
    requires { len ≤ length ys.now }
    ensures { result ≡ start_norm ys.now len }
{
    let mut sum = 1.0f32;
    for y in &ys[..len] {
        sum = sum + *y * *y;
    }
    sum
}

// What `find_best_pitch` carries from lag to lag, by the Rust's names. A correlation is compared as a fraction: its
// square over the energy of the numbers that it was taken of.
// Stays: the best and the second best are not a struct of their own, since the definitions of specs/Best read these
// fields.
#[derive(Clone, Copy)]
pub struct Search {
    // The best lag's squared correlation.
    pub best_num: f32,
    // The second best lag's.
    pub second_best_num: f32,
    // The best lag's energy.
    pub best_den: f32,
    // The second best lag's.
    pub second_best_den: f32,
    // The best lag.
    pub best_pitch: usize,
    // The second best lag.
    pub second_best_pitch: usize,
    // The energy at the lag that comes next.
    pub y_sq_norm: f32,
}

// Lag i becomes the best, the second best, or neither.
#[tactic(auto, unfolding(crate::specs::Best::considered))]
fn consider_lag(s: Search, corr: f32, i: usize) -> Search
    ensures { result ≡ considered corr i s }
{
    if corr > 0.0 {
        let num = corr * corr;
        if num * s.second_best_den > s.second_best_num * s.y_sq_norm {
            if num * s.best_den > s.best_num * s.y_sq_norm {
                return Search {
                    best_num: num,
                    second_best_num: s.best_num,
                    best_den: s.y_sq_norm,
                    second_best_den: s.best_den,
                    best_pitch: i,
                    second_best_pitch: s.best_pitch,
                    ..s
                };
            }
            return Search {
                second_best_num: num,
                second_best_den: s.y_sq_norm,
                second_best_pitch: i,
                ..s
            };
        }
    }
    s
}

// The energy at the lag after i.
#[tactic(auto, unfolding(crate::specs::Best::slid))]
fn slide_norm(s: Search, ys: &[f32], i: usize, len: usize) -> Search
    requires { i + len < length ys.now }
    ensures { result ≡ slid ys.now len i s }
{
    let y_sq_norm = numbers::max(
        s.y_sq_norm + (ys[i + len] * ys[i + len] - ys[i] * ys[i]),
        1.0,
    );
    Search { y_sq_norm, ..s }
}

// `find_best_pitch` for lengths that fit.
fn find_best_pitch_core(xcorr: &[f32], ys: &[f32], len: usize) -> Search
    requires { BestFits (length xcorr.now) (length ys.now) len }
    ensures { result ≡ best xcorr.now ys.now len }
{
    let mut s = Search {
        best_num: -1.0,
        second_best_num: -1.0,
        best_den: 0.0,
        second_best_den: 0.0,
        best_pitch: 0,
        second_best_pitch: 1,
        y_sq_norm: norm(ys, len),
    };
    for (i, corr) in xcorr.iter().enumerate() {
        s = slide_norm(consider_lag(s, *corr, i), ys, i, len);
    }
    s
}

// The two lags that `find_best_pitch` finds.
#[derive(Clone, Copy)]
pub struct Pitches {
    // The best lag.
    pub first: usize,
    // The second best.
    pub second: usize,
}

// The two lags with the largest normalised correlations.
pub fn find_best_pitch(xcorr: &[f32], ys: &[f32], len: usize) -> Result<Pitches, Refusal>
    ensures { Leaf (BestFits (length xcorr.now) (length ys.now) len)
        result (best_of xcorr.now ys.now len) (Err WrongLength) }
{
    if ys.len() < len || ys.len() - len < xcorr.len() {
        return Err(Refusal::WrongLength);
    }
    let s = find_best_pitch_core(xcorr, ys, len);
    Ok(Pitches {
        first: s.best_pitch,
        second: s.second_best_pitch,
    })
}
