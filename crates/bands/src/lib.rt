// Bands, the DCT and the window of lib.rs. The tables are made from the Rust text by tools/make_tables.sh.
// A spectrum is 961 numbers: bin 0, which is real, then the real and the imaginary part of bins 1 to 480.
// Each leaf refuses lengths other than its arrays', and then changes nothing.
// Stays: the loops of add_bins, compute_band_corr_core, fill_band, interp_band_gain_core and add_rows count bands, bins
// or rows, and calculate with the count or hand it on. An iterator would give the same count, and is no plainer.
// Stays: `i < 21` is asked by EdgeTable::band, add_bins and fill_band. The band's number is also the place of its sums,
// so a `Band` that held it would need `start` and `size` as facts of it, and is no plainer than the three bounds.
#![tactic(auto)]

ghost use Rattle.std.specs.Prelude.{◌≡◌, ◌+◌, ◌-◌, ◌≤◌, ◌<◌, Ok, Err, length};
ghost use Rattle.rules.specs.F32.{at, zeros};
ghost use Rattle.rules.specs.Leaf.{Leaf, ◌leaving◌};
ghost use Rattle.rules.specs.Loop.{loop, range};
ghost use Rattle.rules.specs.Tab.{tab};
ghost use Rattle.rules.specs.declared.refusal.Refusal.TheVariants.{WrongLength};
ghost use Rattle.bands.specs.Bands.{edges, edge, bin_corr, in_band, corr_step, band_corr, BandFits, gain_step};
ghost use Rattle.bands.specs.Bands.{band_gain, GainFits};
ghost use Rattle.bands.specs.Dct.{dct_scaled, dct_in, dct_of, DctFits};
ghost use Rattle.bands.specs.Norm.{wnorm};
ghost use Rattle.bands.specs.Private.{sums_after};
ghost use Rattle.bands.specs.Windowed.{windowed_by, windowed, WindowFits};

use rules::Refusal;

mod dct_table;
pub mod window;

// EBAND_5MS times 4.
const EDGES: [usize; 22] = [
    0, 4, 8, 12, 16, 20, 24, 28, 32, 40, 48, 56, 64, 80, 96, 112, 136, 160, 192, 240, 312, 400,
];

// The f64 root of 2 / 22.
const DCT_SCALE: f64 = 0.30151134457776363;

// 1 over the sum of the window's squares: what the first spectrum is scaled by.
#[tactic(auto, using(crate::proofs::Norm::wnorm_is))]
pub fn wnorm() -> f32
    ensures { result ≡ wnorm }
{
    0.0020833334
}

// The band edges, filled once and lent to who loops over the bands: each mention of a constant array fills it anew.
#[derive(Drop)]
struct EdgeTable {
    table: [usize; 22],
    ghost all: { table ≡ edges },
}

impl EdgeTable {
    #[tactic(auto, unfolding(crate::specs::Bands::edges))]
    fn all() -> EdgeTable {
        EdgeTable { table: EDGES }
    }

    // Band i.
    #[tactic(auto, using(crate::proofs::Edges::band_of))]
    fn band(&self, i: usize) -> Band
        requires { i < 21 }
        ensures { (result.start ≡ edge i) × (result.size ≡ edge (i + 1) - edge i) × (i ≤ result.start) }
    {
        let start = self.table[i];
        Band {
            start,
            size: self.table[i + 1] - start,
        }
    }
}

// A band: its first bin, and how many bins it has.
#[derive(Drop)]
struct Band {
    start: usize,
    size: usize,
    ghost ends: { start + size ≤ 400 },
    ghost some: { 0 < size },
    ghost small: { size ≤ 88 },
}

// Bin k, with no branch: this is the innermost loop's.
#[tactic(auto, unfolding(crate::specs::Bands::bin_corr))]
fn corr_at(x: &[f32; 961], p: &[f32; 961], k: usize) -> f32
    requires { (0 < k) × (k ≤ 480) }
    ensures { result ≡ bin_corr x.now p.now k }
{
    let n = 2 * k;
    x[n - 1] * p[n - 1] + x[n] * p[n]
}

// Bin 0, the first of band 0. It is real.
fn add_bin_0(out: &mut [f32; 22], x: &[f32; 961], p: &[f32; 961])
    ensures { out.new ≡ corr_step x.now p.now 0 0 out.old }
{
    let frac = 0.0 / 4.0;
    let corr = x[0] * p[0] + 0.0 * 0.0;
    out[0] = out[0] + (1.0 - frac) * corr;
    out[1] = out[1] + frac * corr;
}

// The bins of band i from its `first` on, but not bin 0. The sums stay in two locals up to the end of the band.
#[tactic(auto, using(crate::proofs::Shares::bins))]
fn add_bins(
    out: &mut [f32; 22],
    edges: &EdgeTable,
    x: &[f32; 961],
    p: &[f32; 961],
    i: usize,
    first: usize,
)
    requires { (i < 21) × (0 < i + first) × (first ≤ 1) }
    ensures { out.new ≡ range first (edge (i + 1) - edge i) (corr_step x.now p.now i) out.old }
{
    let band = edges.band(i);
    let mut low = out[i];
    let mut high = out[i + 1];
    for j in first..band.size {
        let frac = j as f32 / band.size as f32;
        let corr = corr_at(x, p, band.start + j);
        low = low + (1.0 - frac) * corr;
        high = high + frac * corr;
    }
    out[i] = low;
    out[i + 1] = high;
}

// All of band 0, into cleared places.
#[tactic(auto, using(crate::proofs::Shares::first_band))]
fn band_0(out: &mut [f32; 22], edges: &EdgeTable, x: &[f32; 961], p: &[f32; 961])
    ensures { out.new ≡ loop 1 (in_band (corr_step x.now p.now)) (zeros 22) }
{
    rules::clear(out);
    add_bin_0(out, x, p);
    add_bins(out, edges, x, p, 0, 1);
}

#[tactic(auto, using(crate::proofs::Shares::whole_bands), unfolding(crate::specs::Bands::band_corr))]
fn compute_band_corr_core(out: &mut [f32; 22], x: &[f32; 961], p: &[f32; 961])
    ensures { out.new ≡ band_corr x.now p.now }
{
    let edges = EdgeTable::all();
    band_0(out, &edges, x, p);
    for i in 1..21 {
        add_bins(out, &edges, x, p, i, 0);
    }
    out[0] = out[0] * 2.0;
    out[21] = out[21] * 2.0;
}

// The correlation of two spectra, by bands.
pub fn compute_band_corr(out: &mut [f32], x: &[f32], p: &[f32]) -> Result<(), Refusal>
    ensures { Leaf (BandFits (length out.old) (length x.now) (length p.now))
        (result leaving out.new)
        (Ok tt leaving band_corr x.now p.now)
        (Err WrongLength leaving out.old) }
{
    let (Some(out), Some(x), Some(p)) = (out.as_mut_array(), x.as_array(), p.as_array()) else {
        return Err(Refusal::WrongLength);
    };
    compute_band_corr_core(out, x, p);
    Ok(())
}

// The bins of band i, between its gain and the next band's. Floats are made of four numbers of 16 bits at a time.
#[tactic(auto, using(rules::proofs::Loops::turns))]
fn fill_band(out: &mut [f32; 481], edges: &EdgeTable, bands: &[f32; 22], i: usize)
    requires { i < 21 }
    ensures { out.new ≡ in_band (gain_step bands.now) i out.old }
{
    let Band { start, size } = edges.band(i);
    let low = bands[i];
    let high = bands[i + 1];
    let bins = size as u16 as f32;
    for j in 0..size {
        let frac = j as u16 as f32 / bins;
        out[start + j] = (1.0 - frac) * low + frac * high;
    }
}

#[tactic(auto, using(rules::proofs::Loops::turns), unfolding(crate::specs::Bands::band_gain))]
fn interp_band_gain_core(out: &mut [f32; 481], bands: &[f32; 22])
    ensures { out.new ≡ band_gain bands.now }
{
    let edges = EdgeTable::all();
    rules::clear(out);
    for i in 0..21 {
        fill_band(out, &edges, bands, i);
    }
}

// A gain for each of the 481 bins from those of the bands. Bins 400 to 480 have 0.
pub fn interp_band_gain(out: &mut [f32], bands: &[f32]) -> Result<(), Refusal>
    ensures { Leaf (GainFits (length out.old) (length bands.now))
        (result leaving out.new)
        (Ok tt leaving band_gain bands.now)
        (Err WrongLength leaving out.old) }
{
    let (Some(out), Some(bands)) = (out.as_mut_array(), bands.as_array()) else {
        return Err(Refusal::WrongLength);
    };
    interp_band_gain_core(out, bands);
    Ok(())
}

// Row j of the table: each of the 22 sums gets its next product. No sum waits for another: so four are added at a time.
fn add_row(sums: &mut [f32; 22], table: &[f32; 484], x: &[f32; 22], j: usize)
    requires { (j < 22) × (sums.old ≡ sums_after table.now x.now j) }
    ensures { sums.new ≡ sums_after table.now x.now (j + 1) }
{
    let factor = x[j];
    let row = j * 22;
    // Stays: `iter_mut().enumerate()` was tried here, and the DCT took about a quarter longer.
    for i in 0..22 {
        sums[i] = sums[i] + factor * table[row + i];
    }
}

// The 22 sums, into any places.
#[tactic(auto, using(rules::proofs::Loops::turns, crate::proofs::Sums::sums_none))]
fn add_rows(sums: &mut [f32; 22], table: &[f32; 484], x: &[f32; 22])
    ensures { sums.new ≡ sums_after table.now x.now 22 }
{
    rules::clear(sums);
    for j in 0..22 {
        add_row(sums, table, x, j);
    }
}

// A cast to f64 is asked to be of no NaN.
fn dct_scaled(sum: f32) -> f32
    ensures { result ≡ dct_scaled sum }
{
    if sum != sum {
        return 0.0 / 0.0;
    }
    numbers::narrow(sum as f64 * DCT_SCALE)
}

fn scale_sums(sums: &mut [f32; 22])
    ensures { sums.new ≡ tab 22 (λ i. dct_scaled (at sums.old i)) }
{
    for sum in sums.iter_mut() {
        *sum = dct_scaled(*sum);
    }
}

fn dct_core(out: &mut [f32; 22], table: &[f32; 484], x: &[f32; 22])
    ensures { out.new ≡ dct_in table.now x.now }
{
    add_rows(out, table, x);
    scale_sums(out);
}

// A brute-force DCT of 22 numbers.
pub fn dct(out: &mut [f32], x: &[f32]) -> Result<(), Refusal>
    ensures { Leaf (DctFits (length out.old) (length x.now))
        (result leaving out.new)
        (Ok tt leaving dct_of x.now)
        (Err WrongLength leaving out.old) }
{
    let (Some(out), Some(x)) = (out.as_mut_array(), x.as_array()) else {
        return Err(Refusal::WrongLength);
    };
    dct_core(out, &dct_table::all(), x);
    Ok(())
}

// Each number times the table's, in place.
fn apply_table(xs: &mut [f32; 960], table: &[f32; 960])
    ensures { xs.new ≡ windowed_by table.now xs.old }
{
    for (i, x) in xs.iter_mut().enumerate() {
        *x = *x * table[i];
    }
}

// The same into another buffer.
// Stays: to copy the input and call apply_table took a third longer.
fn apply_window_core(output: &mut [f32; 960], table: &[f32; 960], input: &[f32; 960])
    ensures { output.new ≡ windowed_by table.now input.now }
{
    for (i, x) in output.iter_mut().enumerate() {
        *x = input[i] * table[i];
    }
}

// The input times the window.
pub fn apply_window(output: &mut [f32], input: &[f32]) -> Result<(), Refusal>
    ensures { Leaf (WindowFits (length output.old) (length input.now))
        (result leaving output.new)
        (Ok tt leaving windowed input.now)
        (Err WrongLength leaving output.old) }
{
    let (Some(output), Some(input)) = (output.as_mut_array(), input.as_array()) else {
        return Err(Refusal::WrongLength);
    };
    apply_window_core(output, &window::all(), input);
    Ok(())
}

// The same of a buffer that is its own input.
pub fn apply_window_in_place(xs: &mut [f32]) -> Result<(), Refusal>
    ensures { Leaf (length xs.old ≡ 960)
        (result leaving xs.new)
        (Ok tt leaving windowed xs.old)
        (Err WrongLength leaving xs.old) }
{
    let Some(xs) = xs.as_mut_array() else {
        return Err(Refusal::WrongLength);
    };
    apply_table(xs, &window::all());
    Ok(())
}
