// The sums of the inverse: the samples n, 960 - n, 480 + n, 480 - n, 240 + n, 240 - n, 720 + n and 720 - n.
ghost use Rattle.std.specs.Prelude.{◌≡◌, ◌+◌, ◌*◌, ◌%◌, ◌≤◌, ◌<◌, length, List, Float};
ghost use Rattle.std.specs.Prelude.{T};
ghost use Rattle.std.specs.Float.Ieee.{fits};
ghost use Rattle.rules.specs.Common.{binary32};
ghost use Rattle.rules.specs.F32.{at};
ghost use Rattle.transforms.specs.Transform.{sample, inverse_of};
ghost use Rattle.transforms.specs.Private.{plus_terms, sums_of, kept, Keeps, sample_lane};
ghost use Rattle.transforms.specs.Private.{sample_part, whole_part};

use crate::lanes::{Four, Sums, ahead, all_of, back, put, spot, times};
use crate::places::Places;
use crate::table::Cosines;

// Adds the real part (r = 0) or the imaginary part (r = 1) of a bin to each sum; the bin is j more than a multiple of
// 4.
fn add_terms(s: Sums, p: Four, q: Four, j: usize, r: usize) -> Sums
    requires { (j < 4) × (r < 2) }
    ensures { result ≡ plus_terms sample_lane (λ i. r) j s p q }
{
    Sums {
        s0: ahead(s.s0, p, q, r),
        s1: back(s.s1, p, q, r),
        s2: ahead(s.s2, p, q, 2 * j + r),
        s3: back(s.s3, p, q, 2 * j + r),
        s4: ahead(s.s4, p, q, j + r),
        s5: back(s.s5, p, q, j + r),
        s6: ahead(s.s6, p, q, 3 * j + r),
        s7: back(s.s7, p, q, 3 * j + r),
    }
}

// The sums of four neighbours with the first bins.
#[derive(Drop)]
struct Run<'a> {
    // The spectrum.
    // A slice: of an array's numbers, proofs don't know that they are of f32.
    x: &'a [f32],
    // The cosines.
    table: &'a Cosines,
    // The places of the next bin. Here n is the bin, and k a sample.
    m: Places,
    // The sums of the bins before it.
    s: Sums,
    ghost long: { length x.now ≡ 961 },
    ghost held: { T (fits binary32 (at x.now 0)) },
    ghost sums: { s ≡ sums_of (sample_part x.now m.n) m.k },
}

impl<'a> Run<'a> {
    // The sums of bin 0.
    fn begin(x: &'a [f32], table: &'a Cosines, n: usize) -> Run<'a>
        requires { (length x.now ≡ 961) × (n < 124) }
        ensures { (result.x.now ≡ x.now) × (result.m.k ≡ n) × (result.m.n ≡ 1) }
    {
        Run {
            x,
            table,
            m: Places::of_0(n).next(),
            s: all_of(0.0 + x[0]),
        }
    }

    // Adds the next bin, twice, to each sum. It is j more than a multiple of 4.
    fn step(self, j: usize) -> Run<'a>
        requires { (0 < self.m.n) × (self.m.n < 480) × (self.m.n % 4 ≡ j) }
        ensures same { result.x.now ≡ self.entry.x.now }
        ensures next { (result.m.k ≡ self.entry.m.k) × (result.m.n ≡ self.entry.m.n + 1) }
    {
        let Run { x, table, m, s } = self;
        let i = 2 * m.n;
        let v = 2.0 * x[i - 1];
        let w = 2.0 * x[i];
        let p = table.read(m, 0);
        let q = table.read(m, 240);
        let h = add_terms(s, times(v, p), times(v, q), j, 0);
        Run {
            x,
            table,
            m: m.next(),
            s: add_terms(h, times(w, p), times(w, q), j, 1),
        }
    }

    // Adds the real part of bin 480, once, to each sum.
    fn end(self) -> Sums
        requires { self.m.n ≡ 480 }
        ensures { result ≡ sums_of (whole_part self.entry.x.now) self.entry.m.k }
    {
        let Run { x, table, m, s } = self;
        let v = x[959];
        let p = times(v, table.read(m, 0));
        let q = times(v, table.read(m, 240));
        add_terms(s, p, q, 0, 0)
    }
}

// The sums of the samples that belong to n, n + 1, n + 2 and n + 3.
// Stays: the run says by its own place whether bins are left, so a loop that counts beside it is no plainer.
fn four_samples(x: &[f32; 961], table: &Cosines, n: usize) -> Sums
    requires { n < 124 }
    ensures { result ≡ sums_of (whole_part x.now) n }
{
    let mut run = Run::begin(x, table, n);
    while run.m.n < 477 {
        run = run.step(1).step(2).step(3).step(0);
    }
    run.step(1).step(2).step(3).end()
}

// All sums.
pub(crate) fn all_samples(parts: &mut [f32; 992], x: &[f32; 961], table: &Cosines)
    ensures { Keeps (whole_part x.now) 992 parts.new }
{
    // Stays: g is counted with, for the neighbours and for their place, so an iterator is no plainer.
    for g in 0..31 {
        let s = four_samples(x, table, 4 * g);
        put(parts, 32 * g, s);
    }
}

// Where sample n is kept.
// Stays: each test goes on from the one before, so a match of ranges, with both ends of each, is no plainer.
fn sample_spot(n: usize) -> usize
    requires { n < 960 }
    ensures { (result < 992) × ((x : List Float) → kept (whole_part x) result ≡ sample x n) }
{
    if n < 121 {
        return spot(0, n);
    }
    if n < 241 {
        return spot(5, 240 - n);
    }
    if n < 361 {
        return spot(4, n - 240);
    }
    if n < 481 {
        return spot(3, 480 - n);
    }
    if n < 601 {
        return spot(2, n - 480);
    }
    if n < 721 {
        return spot(7, 720 - n);
    }
    if n < 841 {
        return spot(6, n - 720);
    }
    spot(1, 960 - n)
}

// Puts all sums into their places.
pub(crate) fn spread(out: &mut [f32; 960], parts: &[f32; 992])
    ensures { (x : List Float) → Keeps (whole_part x) 992 parts.now
        → out.new ≡ inverse_of x }
{
    for (n, y) in out.iter_mut().enumerate() {
        *y = parts[sample_spot(n)];
    }
}
