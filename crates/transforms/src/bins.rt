// The forward sums: the bins k, 480 - k, 240 + k and 240 - k, each with its two parts.
ghost use Rattle.std.specs.Prelude.{◌≡◌, ◌+◌, ◌*◌, ◌%◌, ◌≤◌, ◌<◌, length, List, Float};
ghost use Rattle.rules.specs.Spectrum.{bin_of};
ghost use Rattle.transforms.specs.Transform.{bin, part_of, forward_of};
ghost use Rattle.transforms.specs.Private.{plus_terms, sums_of, kept, Keeps, bin_lane, bin_part};

use crate::lanes::{Four, Sums, ahead, all_of, back, put, spot, times};
use crate::places::Places;
use crate::table::Cosines;

// Adds term n to each sum; n is j more than a multiple of 4.
fn add_terms(s: Sums, p: Four, q: Four, j: usize) -> Sums
    requires { j < 4 }
    ensures { result ≡ plus_terms bin_lane (λ i. i % 2) j s p q }
{
    Sums {
        s0: ahead(s.s0, p, q, 0),
        s1: ahead(s.s1, p, q, 1),
        s2: back(s.s2, p, q, 2 * j),
        s3: back(s.s3, p, q, 2 * j + 1),
        s4: ahead(s.s4, p, q, j),
        s5: ahead(s.s5, p, q, j + 1),
        s6: back(s.s6, p, q, j),
        s7: back(s.s7, p, q, j + 1),
    }
}

// The sums of four neighbours after the first samples.
// Stays: samples::Run is alike, but a step of it reads two numbers and turns them apart. A trait of both would say
// what a step adds in ghost members, which is no plainer.
#[derive(Drop)]
struct Run<'a> {
    // The samples.
    x: &'a [f32; 960],
    // The cosines.
    table: &'a Cosines,
    // The places of the next sample.
    m: Places,
    // The sums of the samples before it.
    s: Sums,
    ghost sums: { s ≡ sums_of (bin_part x.now m.n) m.k },
}

impl<'a> Run<'a> {
    // The sums of no samples.
    fn begin(x: &'a [f32; 960], table: &'a Cosines, k: usize) -> Run<'a>
        requires { k < 124 }
        ensures { (result.x.now ≡ x.now) × (result.m.k ≡ k) × (result.m.n ≡ 0) }
    {
        Run {
            x,
            table,
            m: Places::of_0(k),
            s: all_of(0.0),
        }
    }

    // Adds the next sample to each sum. It is j more than a multiple of 4.
    fn step(self, j: usize) -> Run<'a>
        requires { (self.m.n < 960) × (self.m.n % 4 ≡ j) }
        ensures same { result.x.now ≡ self.entry.x.now }
        ensures next { (result.m.k ≡ self.entry.m.k) × (result.m.n ≡ self.entry.m.n + 1) }
    {
        let Run { x, table, m, s } = self;
        let v = x[m.n];
        let p = times(v, table.read(m, 0));
        let q = times(v, table.read(m, 240));
        Run {
            x,
            table,
            m: m.next(),
            s: add_terms(s, p, q, j),
        }
    }
}

// The sums of the bins that belong to k, k + 1, k + 2 and k + 3.
// Stays: the run says by its own place whether samples are left, so a loop that counts beside it is no plainer.
fn four_bins(x: &[f32; 960], table: &Cosines, k: usize) -> Sums
    requires { k < 124 }
    ensures { result ≡ sums_of (bin_part x.now 960) k }
{
    let mut run = Run::begin(x, table, k);
    while run.m.n < 960 {
        run = run.step(0).step(1).step(2).step(3);
    }
    run.s
}

// The sums for k = 0 to 123. Those of 121 to 123 are computed twice, which is cheaper than a shorter block.
pub(crate) fn all_bins(parts: &mut [f32; 992], x: &[f32; 960], table: &Cosines)
    ensures { Keeps (bin_part x.now 960) 992 parts.new }
{
    // Stays: g is counted with, for the neighbours and for their place, so an iterator is no plainer.
    for g in 0..31 {
        let s = four_bins(x, table, 4 * g);
        put(parts, 32 * g, s);
    }
}

// 1 for an imaginary part, 0 for a real one.
// Stays: a number, since `bin_spot` adds it to that of a sum. An enum of the two parts is no plainer.
fn part_of(j: usize) -> usize
    requires { j < 961 }
    ensures { (240 * result ≡ part_of j) × (result ≤ 1) }
{
    if j == 0 || j % 2 == 1 { 0 } else { 1 }
}

// Where number j of the spectrum is kept.
// Stays: each test goes on from the one before, so a match of ranges, with both ends of each, is no plainer.
fn bin_spot(j: usize) -> usize
    requires { j < 961 }
    ensures { (result < 992) × ((x : List Float) → kept (bin_part x 960) result ≡ bin x (bin_of j) (part_of j)) }
{
    let b = (j + 1) / 2;
    let r = part_of(j);
    if b < 121 {
        return spot(r, b);
    }
    if b < 241 {
        return spot(6 + r, 240 - b);
    }
    if b < 361 {
        return spot(4 + r, b - 240);
    }
    spot(2 + r, 480 - b)
}

// Puts all sums into their places in the spectrum.
pub(crate) fn spread(out: &mut [f32; 961], parts: &[f32; 992])
    ensures { (x : List Float) → Keeps (bin_part x 960) 992 parts.now
        → out.new ≡ forward_of x }
{
    for (j, y) in out.iter_mut().enumerate() {
        *y = parts[bin_spot(j)];
    }
}
