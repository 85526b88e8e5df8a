// Sixteen neighbouring sums of the multiply-add at a time, kept in registers over all inputs. Four weights are read as
// one word, and then used byte by byte over four words: so one load of sixteen bytes serves sixteen products. The sums
// are first stored in the order in which they were computed, and a second pass puts them in order.
ghost use Rattle.std.specs.Prelude.{◌≡◌, ◌+◌, ◌*◌, ◌/◌, ◌%◌, ◌≤◌, length};
ghost use Rattle.rules.specs.F32.{at, nat_at};
ghost use Rattle.rules.specs.Tab.{tab};
ghost use Rattle.matrix.specs.Sums.{of_byte};
ghost use Rattle.matrix.specs.Private.{Bytes, plus_four, plus_sixteen, four_at, sixteen_at, sixteen_sums};
ghost use Rattle.matrix.specs.Private.{neuron, spot, store_four, Rows, Blocks};

use crate::sums::weight;

// Four neighbouring sums.
// Stays: four names rather than an array are no less plain, as each sum takes a different byte of a word.
#[derive(Drop)]
struct Four {
    a: f32,
    b: f32,
    c: f32,
    d: f32,
}

// Four times four neighbouring sums.
// Stays: four names, as in `Four`. In an array each would be named by its place, which is no plainer.
#[derive(Drop)]
struct Sixteen {
    p: Four,
    q: Four,
    r: Four,
    s: Four,
}

// Four bytes as one number, the lowest first.
fn joined(b0: u8, b1: u8, b2: u8, b3: u8) -> u32
    ensures { Bytes result b0 b1 b2 b3 }
{
    b0 as u32 + b1 as u32 * 256 + b2 as u32 * 65536 + b3 as u32 * 16777216
}

// Four weights as one word. It is a function of its own so that it becomes one load.
fn word(weights: &[u8], place: usize) -> u32
    requires { place + 4 ≤ length weights.now }
    ensures { Bytes result (nat_at weights.now place) (nat_at weights.now (place + 1))
        (nat_at weights.now (place + 2)) (nat_at weights.now (place + 3)) }
{
    joined(
        weights[place],
        weights[place + 1],
        weights[place + 2],
        weights[place + 3],
    )
}

// The lowest byte of a word as the weight that it stands for. The byte is used as the last digits of a large float,
// which is then subtracted.
fn byte0(v: u32) -> f32
    ensures { result ≡ of_byte (v % 256) }
{
    f32::from_bits((v % 256) ^ 0x4B00_0080) - 8388736.0
}

// The second byte.
// Stays: a byte of `to_le_bytes` is no plainer in byte1 to byte3. byte1 wants the byte where it stands in the word,
// and the contracts of byte2 and byte3 name the byte by the same division.
fn byte1(v: u32) -> f32
    ensures { result ≡ of_byte (v / 256 % 256) }
{
    f32::from_bits((v / 256 % 256 * 256) ^ 0x4700_8000) - 32896.0
}

// The third byte.
fn byte2(v: u32) -> f32
    ensures { result ≡ of_byte (v / 65536 % 256) }
{
    weight((v / 65536 % 256) as u8)
}

// The highest byte.
fn byte3(v: u32) -> f32
    ensures { result ≡ of_byte (v / 16777216) }
{
    weight((v / 16777216) as u8)
}

// Adds four products to four sums.
fn plus(s: Four, weights: &[u8], place: usize, x: f32) -> Four
    requires { place + 4 ≤ length weights.now }
    ensures { result ≡ plus_four weights.now place x s }
{
    let v = word(weights, place);
    Four {
        a: s.a + byte0(v) * x,
        b: s.b + byte1(v) * x,
        c: s.c + byte2(v) * x,
        d: s.d + byte3(v) * x,
    }
}

// Adds sixteen products to sixteen sums.
fn step(s: Sixteen, weights: &[u8], place: usize, x: f32) -> Sixteen
    requires { place + 16 ≤ length weights.now }
    ensures { result ≡ plus_sixteen weights.now place x s }
{
    Sixteen {
        p: plus(s.p, weights, place, x),
        q: plus(s.q, weights, place + 4, x),
        r: plus(s.r, weights, place + 8, x),
        s: plus(s.s, weights, place + 12, x),
    }
}

// Sixteen sums over all inputs, in order.
fn sums(s: Sixteen, weights: &[u8], stride: usize, place: usize, input: &[f32]) -> Sixteen
    requires { Rows (length weights.now) stride place (length input.now) }
    ensures { result ≡ sixteen_sums weights.now stride place input.now
        (length input.now) s }
{
    let mut r = s;
    for (i, x) in input.iter().enumerate() {
        let row = i * stride + place;
        r = step(r, weights, row, *x);
    }
    r
}

// Reads four neighbouring numbers.
fn take_four(out: &[f32], place: usize) -> Four
    requires { place + 4 ≤ length out.now }
    ensures { result ≡ four_at out.now place }
{
    Four {
        a: out[place],
        b: out[place + 1],
        c: out[place + 2],
        d: out[place + 3],
    }
}

// Reads sixteen neighbouring numbers.
fn take_sixteen(out: &[f32], place: usize) -> Sixteen
    requires { place + 16 ≤ length out.now }
    ensures { result ≡ sixteen_at out.now place }
{
    Sixteen {
        p: take_four(out, place),
        q: take_four(out, place + 4),
        r: take_four(out, place + 8),
        s: take_four(out, place + 12),
    }
}

// Stores four neighbouring numbers.
// Stays: four stores in a row, as `store_four` has them. An array made to be copied is no plainer.
fn give(to: &mut [f32], place: usize, a: f32, b: f32, c: f32, d: f32)
    requires { place + 4 ≤ length to.old }
    ensures { to.new ≡ store_four to.old place a b c d }
{
    to[place] = a;
    to[place + 1] = b;
    to[place + 2] = c;
    to[place + 3] = d;
}

// All blocks of sixteen sums. They are stored in the order of the bytes: first those of the lowest byte of each word,
// then those of the next.
// Stays: the loops of blocks and ordered go from sixteen to sixteen by a place. It is the place in two slices, and in
// blocks part of the offset, so with chunks of one slice it would still be needed, which is no plainer.
fn blocks(
    kept: &mut [f32],
    out: &[f32],
    weights: &[u8],
    stride: usize,
    offset: usize,
    input: &[f32],
)
    requires { Blocks (length kept.old) (length out.now) (length weights.now) stride offset
        (length input.now) }
    ensures { kept.new
        ≡ tab (length out.now)
        (λ i. neuron out.now weights.now stride offset input.now
        (spot i)) }
{
    for a in (0..out.len()).step_by(16) {
        let s = sums(take_sixteen(out, a), weights, stride, offset + a, input);
        give(kept, a, s.p.a, s.q.a, s.r.a, s.s.a);
        give(kept, a + 4, s.p.b, s.q.b, s.r.b, s.s.b);
        give(kept, a + 8, s.p.c, s.q.c, s.r.c, s.s.c);
        give(kept, a + 12, s.p.d, s.q.d, s.r.d, s.s.d);
    }
}

// Puts four of them in order again: they are four places apart.
fn back(out: &mut [f32], place: usize, kept: &[f32], from: usize)
    requires { (place + 4 ≤ length out.old) × (from + 13 ≤ length kept.now) }
    ensures { out.new
        ≡ store_four out.old place (at kept.now from) (at kept.now (from + 4))
        (at kept.now (from + 8)) (at kept.now (from + 12)) }
{
    give(
        out,
        place,
        kept[from],
        kept[from + 4],
        kept[from + 8],
        kept[from + 12],
    );
}

// Puts all of them in order.
fn ordered(out: &mut [f32], kept: &[f32])
    requires { (length kept.now ≡ length out.old) × (length out.old % 16 ≡ 0) }
    ensures { out.new ≡ tab (length out.old) (λ j. at kept.now (spot j)) }
{
    for a in (0..kept.len()).step_by(16) {
        back(out, a, kept, a);
        back(out, a + 4, kept, a + 1);
        back(out, a + 8, kept, a + 2);
        back(out, a + 12, kept, a + 3);
    }
}

// The multiply-add of a number of sums that sixteen divides, with lent places for them.
pub(crate) fn wide(
    out: &mut [f32],
    kept: &mut [f32],
    weights: &[u8],
    stride: usize,
    offset: usize,
    input: &[f32],
)
    requires { Blocks (length kept.old) (length out.old) (length weights.now) stride offset
        (length input.now) }
    ensures { out.new
        ≡ tab (length out.old)
        (neuron out.old weights.now stride offset input.now) }
{
    blocks(kept, &out[..], weights, stride, offset, input);
    ordered(out, &kept[..]);
}
