// The arithmetic of pitch.rs up to the downsampled signal. (The search over lags is in `pitch_search`.) A public
// function refuses with `WrongLength`, and changes nothing, exactly if its lengths do not fit; its core does the work.
//
// Stays: `recur`, `update`, `lags`, `tail`, `xcorr_by` and `xcorr_rest` count an index. It is part of their sums of
// indexes, as in `ac[i - j]`, or of their calls, so an iterator is no plainer.
#![tactic(auto)]

ghost use Rattle.std.specs.Prelude.{◌≡◌, ◌+◌, ◌-◌, ◌%◌, ◌<◌, ◌≤◌, Ok, Err, length, take};
ghost use Rattle.std.specs.Float.Ieee.{neg};
ghost use Rattle.rules.specs.F32.{f32};
ghost use Rattle.rules.specs.Leaf.{Leaf, ◌leaving◌};
ghost use Rattle.rules.specs.Tab.{tab};
ghost use Rattle.rules.specs.declared.refusal.Refusal.TheVariants.{WrongLength};
ghost use Rattle.pitch.specs.Autocorr.{tail_of, add_tails, celt_autocorr, AutocorrFits};
ghost use Rattle.pitch.specs.Fir.{fir5};
ghost use Rattle.pitch.specs.Downsample.{halved_at, halved, floored_at, floored, faded_lpc, coefficients};
ghost use Rattle.pitch.specs.Downsample.{downsampled, DownsampleFits};
ghost use Rattle.pitch.specs.Lpc.{recurrence, mirror, state, lag_next, lags_of, lpc_of};
ghost use Rattle.pitch.specs.Xcorr.{corr, whole_fours, lag_of, pitch_xcorr, XcorrFits};

mod lanes;

use rules::Refusal;

// `fir5_in_place` for five coefficients.
fn fir5_core(xs: &mut [f32], num: &[f32; 5])
    ensures { xs.new ≡ fir5 xs.old num.now }
{
    let [num0, num1, num2, num3, num4] = *num;
    let mut mem0 = 0.0f32;
    let mut mem1 = 0.0f32;
    let mut mem2 = 0.0f32;
    let mut mem3 = 0.0f32;
    let mut mem4 = 0.0f32;
    for place in xs.iter_mut() {
        let x = *place;
        *place = x + num0 * mem0 + num1 * mem1 + num2 * mem2 + num3 * mem3 + num4 * mem4;
        mem4 = mem3;
        mem3 = mem2;
        mem2 = mem1;
        mem1 = mem0;
        mem0 = x;
    }
}

// A filter of five coefficients, applied to `xs` in place.
pub fn fir5_in_place(xs: &mut [f32], num: &[f32]) -> Result<(), Refusal>
    ensures { Leaf (length num.now ≡ 5)
        (result leaving xs.new)
        (Ok tt leaving fir5 xs.old num.now)
        (Err WrongLength leaving xs.old) }
{
    let Some(num) = num.as_array::<5>() else {
        return Err(Refusal::WrongLength);
    };
    fir5_core(xs, num);
    Ok(())
}

// The sum of lpc[j] * ac[i - j] for the j below i.
fn recur(lpc: &[f32], ac: &[f32], i: usize) -> f32
    requires { (i < length lpc.now) × (i < length ac.now) }
    ensures { result ≡ recurrence lpc.now ac.now i }
{
    let mut rr = 0.0f32;
    for j in 0..i {
        rr = rr + lpc[j] * ac[i - j];
    }
    rr
}

// Updates lpc[..i], which is done in pairs from both ends.
fn update(lpc: &mut [f32], r: f32, i: usize)
    requires { i < length lpc.old }
    ensures { lpc.new ≡ mirror lpc.old r i }
{
    for j in 0..(i + 1) / 2 {
        let tmp1 = lpc[j];
        let tmp2 = lpc[i - 1 - j];
        lpc[j] = tmp1 + r * tmp2;
        lpc[i - 1 - j] = tmp2 + r * tmp1;
    }
}

// One lag more. Returns the error that is left.
fn lag(lpc: &mut [f32], ac: &[f32], i: usize, error: f32) -> f32
    requires { (i < length lpc.old) × (length lpc.old < length ac.now) }
    ensures { state lpc.new result ≡ lag_next ac.now i (state lpc.old error) }
{
    let rr = recur(lpc, ac, i) + ac[i + 1];
    let r = -rr / error;
    lpc[i] = r;
    update(lpc, r, i);
    error - r * r * error
}

// All lags, until the gain is 30 dB.
fn lags(lpc: &mut [f32], ac: &[f32])
    requires { length lpc.old < length ac.now }
    ensures { lpc.new ≡ lags_of lpc.old ac.now }
{
    let mut error = ac[0];
    for i in 0..lpc.len() {
        error = lag(lpc, ac, i, error);
        if error < 0.001 * ac[0] {
            return;
        }
    }
}

// `lpc` for lengths that fit.
fn lpc_core(lpc: &mut [f32], ac: &[f32])
    requires { length lpc.old < length ac.now }
    ensures { lpc.new ≡ lpc_of (length lpc.old) ac.now }
{
    rules::clear(lpc);
    if ac[0] == 0.0 {
        return;
    }
    lags(lpc, ac);
}

// Linear predictive coding: the coefficients for as many lags as `lpc` has places, from autocorrelations.
pub fn lpc(lpc: &mut [f32], ac: &[f32]) -> Result<(), Refusal>
    ensures { Leaf (length lpc.old < length ac.now)
        (result leaving lpc.new)
        (Ok tt leaving lpc_of (length lpc.old) ac.now)
        (Err WrongLength leaving lpc.old) }
{
    if ac.len() <= lpc.len() {
        return Err(Refusal::WrongLength);
    }
    lpc_core(lpc, ac);
    Ok(())
}

// The correlation at one lag, summed from -0.0 as an iterator sums it.
// Stays: `lanes::corr_lags` starts from +0.0. Which lags start from which zero is said by the definition `lag_of`,
// which may not change.
fn corr1(xs: &[f32], ys: &[f32], i: usize) -> f32
    requires { i + length xs.now ≤ length ys.now }
    ensures { result ≡ corr (neg (f32 0)) xs.now ys.now i }
{
    let mut sum = -0.0f32;
    for (j, x) in xs.iter().enumerate() {
        sum = sum + *x * ys[i + j];
    }
    sum
}

// The lags from `from` on that are computed N at a time.
// Stays: that the three lengths fit is asked by `xcorr_by`, `xcorr_rest` and `pitch_xcorr_core`. Two of the slices are
// read and one is written, and all have any length, so a struct of the three is no plainer.
fn xcorr_by<const N: usize>(xs: &[f32], ys: &[f32], xcorr: &mut [f32], from: usize)
    requires lengths_fit { XcorrFits (length xs.now) (length ys.now) (length xcorr.old) }
    requires fours { (0 < N) × (N % 4 ≡ 0) × (from % 4 ≡ 0) }
    requires steps { (from ≤ length xcorr.old) × ((length xcorr.old - from) % N ≡ length xcorr.old % N) }
    requires front_done { take from xcorr.old ≡ tab from (lag_of xs.now ys.now (length xcorr.old)) }
    ensures { take (length xcorr.old - length xcorr.old % N) xcorr.new
        ≡ tab (length xcorr.old - length xcorr.old % N)
        (lag_of xs.now ys.now (length xcorr.old)) }
{
    let n = xcorr.len();
    let mut i = from;
    while n - i >= N {
        lanes::put(xcorr, i, &lanes::corr_lags::<N>(xs, ys, i));
        i += N;
    }
}

// The lags that are left.
fn xcorr_rest(xs: &[f32], ys: &[f32], xcorr: &mut [f32])
    requires lengths_fit { XcorrFits (length xs.now) (length ys.now) (length xcorr.old) }
    requires fours_done { take (whole_fours (length xcorr.old)) xcorr.old
        ≡ tab (whole_fours (length xcorr.old)) (lag_of xs.now ys.now (length xcorr.old)) }
    ensures { xcorr.new
        ≡ pitch_xcorr xs.now ys.now (length xcorr.old) }
{
    let n = xcorr.len();
    for i in n - n % 4..n {
        xcorr[i] = corr1(xs, ys, i);
    }
}

// `pitch_xcorr` for lengths that fit.
fn pitch_xcorr_core(xs: &[f32], ys: &[f32], xcorr: &mut [f32])
    requires { XcorrFits (length xs.now) (length ys.now) (length xcorr.old) }
    ensures { xcorr.new
        ≡ pitch_xcorr xs.now ys.now (length xcorr.old) }
{
    let n = xcorr.len();
    xcorr_by::<16>(xs, ys, xcorr, 0);
    xcorr_by::<4>(xs, ys, xcorr, n - n % 16);
    xcorr_rest(xs, ys, xcorr);
}

// The correlations of xs with ys, at as many lags as xcorr has places.
pub fn pitch_xcorr(xs: &[f32], ys: &[f32], xcorr: &mut [f32]) -> Result<(), Refusal>
    ensures { Leaf (XcorrFits (length xs.now) (length ys.now)
        (length xcorr.old))
        (result leaving xcorr.new)
        (Ok tt leaving pitch_xcorr xs.now ys.now (length xcorr.old))
        (Err WrongLength leaving xcorr.old) }
{
    let n = xcorr.len();
    if n == 0 {
        return Ok(());
    }
    let m = xs.len();
    if ys.len() < m || ys.len() - m < n - 1 || ys.len() - (m - m % 4) < n - n % 4 {
        return Err(Refusal::WrongLength);
    }
    pitch_xcorr_core(xs, ys, xcorr);
    Ok(())
}

// The products at lag k that `pitch_xcorr` left out: those from `from` on.
fn tail(x: &[f32], k: usize, from: usize) -> f32
    requires { k + from ≤ length x.now }
    ensures { result ≡ tail_of x.now k from }
{
    let mut d = 0.0f32;
    for i in k + from..x.len() {
        d = d + x[i] * x[i - k];
    }
    d
}

// Adds them for each lag.
fn add_tails(x: &[f32], ac: &mut [f32], from: usize)
    requires { length ac.old + from ≤ length x.now + 1 }
    ensures { ac.new ≡ add_tails x.now from ac.old }
{
    for (k, sum) in ac.iter_mut().enumerate() {
        *sum = *sum + tail(x, k, from);
    }
}

// `celt_autocorr` for lengths that fit.
fn celt_autocorr_core(x: &[f32], ac: &mut [f32])
    requires { AutocorrFits (length x.now) (length ac.old) }
    ensures { ac.new ≡ celt_autocorr x.now }
{
    let fast = x.len() - (ac.len() - 1);
    pitch_xcorr_core(&x[..fast], x, ac);
    add_tails(x, ac, fast);
}

// The autocorrelation of x at the lags 0 to 4.
pub fn celt_autocorr(x: &[f32], ac: &mut [f32]) -> Result<(), Refusal>
    ensures { Leaf (AutocorrFits (length x.now) (length ac.old))
        (result leaving ac.new)
        (Ok tt leaving celt_autocorr x.now)
        (Err WrongLength leaving ac.old) }
{
    if ac.len() != 5 || x.len() < 5 {
        return Err(Refusal::WrongLength);
    }
    celt_autocorr_core(x, ac);
    Ok(())
}

// Number i at half the rate: a weighted mean of three neighbours.
fn halve_at(x: &[f32], i: usize) -> f32
    requires { (length x.now ≡ 1728) × (i < 864) }
    ensures { result ≡ halved_at x.now i }
{
    if i == 0 {
        return (x[1] / 2.0 + x[0]) / 2.0;
    }
    ((x[2 * i - 1] + x[2 * i + 1]) / 2.0 + x[2 * i]) / 2.0
}

// All numbers at half the rate.
fn halve(x: &[f32], x_lp: &mut [f32])
    requires { DownsampleFits (length x.now) (length x_lp.old) }
    ensures { x_lp.new ≡ halved x.now }
{
    for (i, low) in x_lp.iter_mut().enumerate() {
        *low = halve_at(x, i);
    }
}

// The noise floor (lag 0) or the lag window (other lags).
fn floor_at(r: f32, i: usize) -> f32
    requires { i < 5 }
    ensures { result ≡ floored_at r i }
{
    if i == 0 {
        return r * 1.0001;
    }
    let w = 0.008 * (i as f32);
    r - r * w * w
}

// Both for all five lags.
fn floor(ac: &mut [f32; 5])
    ensures { ac.new ≡ floored ac.old }
{
    for (i, r) in ac.iter_mut().enumerate() {
        *r = floor_at(*r, i);
    }
}

// Multiplies coefficient i by 0.9, i + 1 times.
fn fade_coefficients(lpc: &mut [f32; 4])
    ensures { lpc.new ≡ faded_lpc lpc.old }
{
    let mut tmp = 1.0f32;
    for c in lpc.iter_mut() {
        tmp = tmp * 0.9;
        *c = *c * tmp;
    }
}

// The coefficients of the filter that flattens x_lp.
fn flatten(x_lp: &[f32]) -> [f32; 5]
    requires { 5 ≤ length x_lp.now }
    ensures { result ≡ coefficients x_lp.now }
{
    let mut ac = [0.0f32; 5];
    celt_autocorr_core(x_lp, &mut ac);
    floor(&mut ac);
    let mut c = [0.0f32; 4];
    lpc_core(&mut c, &ac);
    fade_coefficients(&mut c);
    [
        c[0] + 0.8,
        c[1] + 0.8 * c[0],
        c[2] + 0.8 * c[1],
        c[3] + 0.8 * c[2],
        0.8 * c[3],
    ]
}

// `pitch_downsample` for lengths that fit.
fn pitch_downsample_core(x: &[f32], x_lp: &mut [f32])
    requires { DownsampleFits (length x.now) (length x_lp.old) }
    ensures { x_lp.new ≡ downsampled x.now }
{
    halve(x, x_lp);
    let num = flatten(&x_lp[..]);
    fir5_core(x_lp, &num);
}

// x at half the rate, with a flattened spectrum.
pub fn pitch_downsample(x: &[f32], x_lp: &mut [f32]) -> Result<(), Refusal>
    ensures { Leaf (DownsampleFits (length x.now) (length x_lp.old))
        (result leaving x_lp.new)
        (Ok tt leaving downsampled x.now)
        (Err WrongLength leaving x_lp.old) }
{
    if x.len() != 1728 || x_lp.len() != 864 {
        return Err(Refusal::WrongLength);
    }
    pitch_downsample_core(x, x_lp);
    Ok(())
}
