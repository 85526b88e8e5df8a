// The samples that wait: 479 places after a frame's part. Unused places are zero.
ghost use Rattle.std.specs.Prelude.{◌≡◌, ◌≤◌, [], ◌++◌, length, get_or, take, drop};
ghost use Rattle.rules.specs.F32.{f32};
ghost use Rattle.rules.specs.Place.{put};
ghost use Rattle.samples.specs.Samples.{good};
ghost use Rattle.pieces.specs.Pieces.{waiting_place, waiting_in, padded_to, waits};

// The places at which samples may wait begin here and end there.
const FROM: usize = frame::PART;

const TO: usize = FROM + 479;

// Number i of the front followed by the rest, and 0 beyond them.
fn pick(front: &[f32], rest: &[f32], i: usize) -> f32
    ensures { result ≡ get_or (front.now ++ rest.now) i (f32 0) }
{
    if i < front.len() {
        return front[i];
    }
    let behind = i - front.len();
    if behind < rest.len() {
        return rest[behind];
    }
    0.0
}

// `out` becomes the front followed by the rest, as far as it has room, filled up with zeros.
pub fn join(out: &mut [f32], front: &[f32], rest: &[f32])
    ensures { out.new
        ≡ padded_to (length out.old) (front.now ++ rest.now) }
{
    for (i, place) in out.iter_mut().enumerate() {
        *place = pick(front, rest, i);
    }
}

// Whether the samples that wait are good.
pub(crate) fn waiting_good(share: &[f32], waiting: usize) -> bool
    requires { (length share.now ≡ 6144) × (waiting ≤ 479) }
    ensures { result ≡ good (waiting_in waiting share.now) }
{
    let end = FROM + waiting;
    samples::all_good(&share[FROM..end])
}

// `first` becomes the samples that wait followed by those of a piece, filled up with zeros.
#[tactic(auto, unfolding(rules::specs::Place::get))]
pub(crate) fn gather(first: &mut [f32], share: &[f32], waiting: usize, samples: &[f32])
    requires { (length share.now ≡ 6144) × (waiting ≤ 479) }
    ensures { first.new
        ≡ padded_to (length first.old) (waiting_in waiting share.now ++ samples.now) }
{
    let end = FROM + waiting;
    join(first, &share[FROM..end], samples);
}

// Lets the first 479 numbers wait.
#[tactic(auto, using(rules::proofs::Refusals::left), unfolding(rules::specs::Place::get, rules::specs::Place::put))]
pub(crate) fn settle(share: &mut [f32], first: &[f32])
    requires { (length share.old ≡ 6144) × (length first.now ≡ 480) }
    ensures { share.new ≡ put (waiting_place 479) share.old (take 479 first.now) }
{
    rules::copy(&mut share[FROM..TO], &first[0..479]).unwrap();
}

// Lets nothing wait.
pub(crate) fn empty(share: &mut [f32])
    requires { length share.old ≡ 6144 }
    ensures { share.new ≡ waits share.old [] }
{
    rules::clear(&mut share[FROM..TO]);
}

// Lets the samples from `from` on wait.
pub(crate) fn keep(share: &mut [f32], samples: &[f32], from: usize)
    requires { (length share.old ≡ 6144) × (from ≤ length samples.now) }
    ensures { share.new ≡ waits share.old (drop from samples.now) }
{
    join(&mut share[FROM..TO], &samples[0..0], &samples[from..]);
}
