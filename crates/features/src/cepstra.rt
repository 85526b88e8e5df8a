// Smoothed logarithms, the cepstral memory of 8 rows of 22, and the features that are made of it.
// Stays: the loops of row_distance, nearest_row and spectral_variability calculate with their index or hand it on as a
// row. An iterator would give the same index, and no item is used alone.
ghost use Rattle.std.specs.Prelude.{◌≡◌, ◌*◌, ◌≤◌, length};
ghost use Rattle.rules.specs.Place.{put};
ghost use Rattle.rules.specs.F32.{part};
ghost use Rattle.features.specs.Features.{laid};
ghost use Rattle.features.specs.Cepstra.{follow_logs, cepstrum, row, back, deltas, cepstral_distance, nearest_step};
ghost use Rattle.features.specs.Cepstra.{nearest, variability};
ghost use Rattle.features.specs.Private.{delta_of};

// Smooths the logarithms: none is more than 7 below the largest before it, and from band to band they fall by at most
// 1.5.
fn follow_logs(ly: &mut [f32; 22], logs: &[f32; 22])
    ensures { ly.new ≡ follow_logs logs.now }
{
    let mut log_max = -2.0f32;
    let mut follow = -2.0f32;
    for (i, place) in ly.iter_mut().enumerate() {
        let y = numbers::max(numbers::max(logs[i], log_max - 7.0), follow - 1.5);
        *place = y;
        log_max = numbers::max(log_max, y);
        follow = numbers::max(follow - 1.5, y);
    }
}

// The cepstrum of these logarithms.
#[tactic(auto, using(rules::proofs::Refusals::left), unfolding(crate::specs::Cepstra::cepstrum))]
pub(crate) fn cepstrum_of(logs: &[f32; 22]) -> [f32; 22]
    ensures { result ≡ cepstrum logs.now }
{
    let mut ly = [0.0f32; 22];
    follow_logs(&mut ly, logs);
    let mut out = [0.0f32; 22];
    bands::dct(&mut out, &ly).unwrap();
    out[0] = out[0] - 12.0;
    out[1] = out[1] - 4.0;
    out
}

// A row of the memory.
#[derive(Clone, Copy)]
pub(crate) struct Row {
    pub(crate) index: usize,
    ghost inside: { index ≤ 7 },
}

impl Row {
    // The row k rows before this one; before row 0 comes row 7.
    #[tactic(auto, unfolding(crate::specs::Cepstra::back))]
    fn back(self, k: usize) -> Row
        requires { (k ≤ 8) × (1 ≤ k) }
        ensures { result.index ≡ back self.index k }
    {
        if self.index < k {
            return Row {
                index: 8 + self.index - k,
            };
        }
        Row {
            index: self.index - k,
        }
    }

    // Where it starts.
    fn start(self) -> usize
        ensures { result ≡ self.index * 22 }
    {
        self.index * 22
    }
}

// Stores the cepstrum in this row of the memory.
pub(crate) fn remember(mem: &mut [f32; 176], newest: Row, ceps: &[f32; 22])
    ensures { mem.new ≡ put (row newest.index) mem.old ceps.now }
{
    let at = newest.start();
    mem[at..at + 22].copy_from_slice(ceps);
}

// What is made of three cepstra at one place.
#[derive(Clone, Copy)]
enum Delta {
    // Their sum.
    Smoothed,
    // The newest minus the oldest.
    Slope,
    // Their second difference.
    Bend,
}

impl Delta {
    // One of these for three numbers, the newest first.
    fn of(self, ceps0: f32, ceps1: f32, ceps2: f32) -> f32
        ensures { result ≡ delta_of self ceps0 ceps1 ceps2 }
    {
        match self {
            Delta::Smoothed => ceps0 + ceps1 + ceps2,
            Delta::Slope => ceps0 - ceps2,
            Delta::Bend => ceps0 - 2.0 * ceps1 + ceps2,
        }
    }
}

// One of these at the first six places of three rows.
fn delta_rows(out: &mut [f32], kind: Delta, mem: &[f32; 176], c0: Row, c1: Row, c2: Row)
    requires { length out.old ≡ 6 }
    ensures { out.new ≡ deltas (delta_of kind) mem.now c0.index c1.index c2.index }
{
    let at0 = c0.start();
    let at1 = c1.start();
    let at2 = c2.start();
    for (i, delta) in out.iter_mut().enumerate() {
        *delta = kind.of(mem[at0 + i], mem[at1 + i], mem[at2 + i]);
    }
}

// The squared distance of two rows.
#[tactic(auto, using(rules::proofs::Loops::turns), unfolding(crate::specs::Cepstra::cepstral_distance))]
fn row_distance(mem: &[f32; 176], i: Row, j: Row) -> f32
    ensures { result ≡ cepstral_distance mem.now i.index j.index }
{
    let at_i = i.start();
    let at_j = j.start();
    let mut dist = 0.0f32;
    for k in 0..22 {
        let tmp = mem[at_i + k] - mem[at_j + k];
        dist = dist + tmp * tmp;
    }
    dist
}

// The smaller of `least` and the distance of rows i and j, if i and j differ.
fn nearer(mem: &[f32; 176], i: Row, j: Row, least: f32) -> f32
    ensures { result ≡ nearest_step mem.now i.index j.index least }
{
    if j.index == i.index {
        return least;
    }
    numbers::min(least, row_distance(mem, i, j))
}

// The smallest distance of row i from another row.
#[tactic(auto, using(rules::proofs::Loops::turns), unfolding(crate::specs::Cepstra::nearest))]
fn nearest_row(mem: &[f32; 176], i: Row) -> f32
    ensures { result ≡ nearest mem.now i.index }
{
    let mut least = 1e15f32;
    for index in 0..8 {
        least = nearer(mem, i, Row { index }, least);
    }
    least
}

// How far apart the rows of the memory are.
#[tactic(auto, using(rules::proofs::Loops::turns), unfolding(crate::specs::Cepstra::variability))]
fn spectral_variability(mem: &[f32; 176]) -> f32
    ensures { result ≡ variability mem.now }
{
    let mut sum = 0.0f32;
    for index in 0..8 {
        sum = sum + nearest_row(mem, Row { index });
    }
    sum / 8.0 - 2.1
}

// Adds the features that are made of the memory. Places 6 to 21 and 34 to 40 stay.
pub(crate) fn add_deltas(features: &mut [f32; 42], mem: &[f32; 176], newest: Row)
    ensures { features.new ≡ laid (part 6 22 features.old) (part 34 41 features.old) mem.now newest.index }
{
    let c1 = newest.back(1);
    let c2 = newest.back(2);
    delta_rows(&mut features[0..6], Delta::Smoothed, mem, newest, c1, c2);
    delta_rows(&mut features[22..28], Delta::Slope, mem, newest, c1, c2);
    delta_rows(&mut features[28..34], Delta::Bend, mem, newest, c1, c2);
    features[41] = spectral_variability(mem);
}
