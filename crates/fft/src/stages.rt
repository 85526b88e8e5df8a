// The five stages of the complex transform. Each goes over its lanes four at a time: what the four need is read and
// computed before anything is stored, so that the compiler uses vector instructions for the four. A turn of the loop
// does several fours, so that there are fewer than 16 turns. With more, the compiler would vectorise over four turns
// instead, with gathers, and lose a quarter of the speed.
// Stays: the loops of stage5 to last_stage. Their numbers are counted with, to say where a four begins, so an iterator
// is no plainer.
// Stays: block5 to last_block are alike but for their lane, and so are the stages. A function that is handed a lane
// would have to say for which numbers it may be called and what it gives, and is no plainer. forwards::pack_block and
// inverses::merge_block are alike in the same way.
// Stays: out, c and z go side by side through lanes, blocks and stages. From stage to stage what was written is read,
// so a struct of them would be made anew for each, which is no plainer.
ghost use Rattle.std.specs.Prelude.{◌≡◌, ◌+◌, ◌*◌, ◌/◌, ◌%◌, ◌≤◌, ◌<◌, length};
ghost use Rattle.fft.specs.Fast.{complex_at, turned_back, of_four, row2, row3, row4, row5, stage, transformed};
ghost use Rattle.fft.specs.Single.{single, of};
ghost use Rattle.fft.specs.Private.{bins, Laid};

use crate::bins::{five, four, three, two};
use crate::complex::{Cx, entry, turned};
use crate::puts::put_bins;

// ---- five numbers, 96 apart

#[tactic(auto, unfolding(crate::specs::Fast::row5))]
fn lane5(c: &[f32; 960], z: &[f32; 960], i: usize) -> [Cx; 5]
    requires { i < 96 }
    ensures { result ≡ bins 5 (row5 single (of c.now) z.now i) }
{
    let a = entry(z, i);
    let b = entry(z, i + 96);
    let d = entry(z, i + 192);
    let e = entry(z, i + 288);
    let f = entry(z, i + 384);
    five(c, a, b, d, e, f)
}

fn block5(out: &mut [f32; 960], c: &[f32; 960], z: &[f32; 960], i: usize)
    requires laid { Laid 5 96 (row5 single (of c.now) z.now) i out.old }
    requires i_bound { i + 4 ≤ 96 }
    ensures { Laid 5 96 (row5 single (of c.now) z.now) (i + 4) out.new }
{
    let w = lane5(c, z, i);
    let x = lane5(c, z, i + 1);
    let y = lane5(c, z, i + 2);
    let v = lane5(c, z, i + 3);
    put_bins(out, 96, i, w, x, y, v);
}

fn stage5(out: &mut [f32; 960], c: &[f32; 960], z: &[f32; 960])
    ensures { out.new ≡ stage 96 (row5 single (of c.now) z.now) }
{
    for b in 0..12 {
        let i = 8 * b;
        block5(out, c, z, i);
        block5(out, c, z, i + 4);
    }
}

// ---- three numbers, 32 apart

fn lane3(c: &[f32; 960], z: &[f32; 960], i: usize, k: usize) -> [Cx; 3]
    requires { (i < 160) × (k ≡ i / 32) }
    ensures { result ≡ bins 3 (row3 single (of c.now) 32 z.now i) }
{
    let p = 64 * k + i;
    let t = 64 * k;
    let a = entry(z, p);
    let b = turned(c, z, p + 32, t);
    let d = turned(c, z, p + 64, 2 * t);
    three(c, a, b, d)
}

fn block3(out: &mut [f32; 960], c: &[f32; 960], z: &[f32; 960], i: usize)
    requires laid { Laid 3 160 (row3 single (of c.now) 32 z.now) i out.old }
    requires i_bound { (i + 4 ≤ 160) × (i % 4 ≡ 0) }
    ensures { Laid 3 160 (row3 single (of c.now) 32 z.now) (i + 4) out.new }
{
    let k = i / 32;
    let w = lane3(c, z, i, k);
    let x = lane3(c, z, i + 1, k);
    let y = lane3(c, z, i + 2, k);
    let v = lane3(c, z, i + 3, k);
    put_bins(out, 160, i, w, x, y, v);
}

fn stage3(out: &mut [f32; 960], c: &[f32; 960], z: &[f32; 960])
    ensures { out.new ≡ stage 160 (row3 single (of c.now) 32 z.now) }
{
    for b in 0..40 {
        block3(out, c, z, 4 * b);
    }
}

// ---- four numbers, m apart

fn join4(c: &[f32; 960], z: &[f32; 960], p: usize, m: usize, t: usize) -> [Cx; 4]
    requires { (p + 3 * m < 480) × (3 * t < 720) }
    ensures { result ≡ bins 4 (of_four single
        (complex_at single z.now p)
        (turned_back single (of c.now) t (complex_at single z.now (p + m)))
        (turned_back single (of c.now) (2 * t) (complex_at single z.now (p + 2 * m)))
        (turned_back single (of c.now) (3 * t) (complex_at single z.now (p + 3 * m)))) }
{
    let a = entry(z, p);
    let b = turned(c, z, p + m, t);
    let d = turned(c, z, p + 2 * m, 2 * t);
    let e = turned(c, z, p + 3 * m, 3 * t);
    four(a, b, d, e)
}

fn lane4(c: &[f32; 960], z: &[f32; 960], i: usize, k: usize) -> [Cx; 4]
    requires { (i < 120) × (k ≡ i / 8) }
    ensures { result ≡ bins 4 (row4 single (of c.now) 8 z.now i) }
{
    join4(c, z, 24 * k + i, 8, 16 * k)
}

fn block4(out: &mut [f32; 960], c: &[f32; 960], z: &[f32; 960], i: usize)
    requires laid { Laid 4 120 (row4 single (of c.now) 8 z.now) i out.old }
    requires i_bound { (i + 4 ≤ 120) × (i % 4 ≡ 0) }
    ensures { Laid 4 120 (row4 single (of c.now) 8 z.now) (i + 4) out.new }
{
    let k = i / 8;
    let w = lane4(c, z, i, k);
    let x = lane4(c, z, i + 1, k);
    let y = lane4(c, z, i + 2, k);
    let v = lane4(c, z, i + 3, k);
    put_bins(out, 120, i, w, x, y, v);
}

fn stage4(out: &mut [f32; 960], c: &[f32; 960], z: &[f32; 960])
    ensures { out.new ≡ stage 120 (row4 single (of c.now) 8 z.now) }
{
    for b in 0..30 {
        block4(out, c, z, 4 * b);
    }
}

// ---- two numbers, 4 apart

fn lane2(c: &[f32; 960], z: &[f32; 960], i: usize, k: usize) -> [Cx; 2]
    requires { (i < 240) × (k ≡ i / 4) }
    ensures { result ≡ bins 2 (row2 single (of c.now) 4 z.now i) }
{
    let p = 4 * k + i;
    let a = entry(z, p);
    let b = turned(c, z, p + 4, 8 * k);
    two(a, b)
}

fn block2(out: &mut [f32; 960], c: &[f32; 960], z: &[f32; 960], i: usize)
    requires laid { Laid 2 240 (row2 single (of c.now) 4 z.now) i out.old }
    requires i_bound { (i + 4 ≤ 240) × (i % 4 ≡ 0) }
    ensures { Laid 2 240 (row2 single (of c.now) 4 z.now) (i + 4) out.new }
{
    let k = i / 4;
    let w = lane2(c, z, i, k);
    let x = lane2(c, z, i + 1, k);
    let y = lane2(c, z, i + 2, k);
    let v = lane2(c, z, i + 3, k);
    put_bins(out, 240, i, w, x, y, v);
}

fn stage2(out: &mut [f32; 960], c: &[f32; 960], z: &[f32; 960])
    ensures { out.new ≡ stage 240 (row2 single (of c.now) 4 z.now) }
{
    for b in 0..15 {
        let i = 16 * b;
        let j = i + 4;
        let k = j + 4;
        let l = k + 4;
        block2(out, c, z, i);
        block2(out, c, z, j);
        block2(out, c, z, k);
        block2(out, c, z, l);
    }
}

// ---- four numbers side by side

fn last(c: &[f32; 960], z: &[f32; 960], i: usize) -> [Cx; 4]
    requires { i < 120 }
    ensures { result ≡ bins 4 (row4 single (of c.now) 1 z.now i) }
{
    join4(c, z, 4 * i, 1, 2 * i)
}

fn last_block(out: &mut [f32; 960], c: &[f32; 960], z: &[f32; 960], i: usize)
    requires laid { Laid 4 120 (row4 single (of c.now) 1 z.now) i out.old }
    requires i_bound { i + 4 ≤ 120 }
    ensures { Laid 4 120 (row4 single (of c.now) 1 z.now) (i + 4) out.new }
{
    let w = last(c, z, i);
    let x = last(c, z, i + 1);
    let y = last(c, z, i + 2);
    let v = last(c, z, i + 3);
    put_bins(out, 120, i, w, x, y, v);
}

fn last_stage(out: &mut [f32; 960], c: &[f32; 960], z: &[f32; 960])
    ensures { out.new ≡ stage 120 (row4 single (of c.now) 1 z.now) }
{
    for b in 0..15 {
        let i = 8 * b;
        last_block(out, c, z, i);
        last_block(out, c, z, i + 4);
    }
}

// The transform of z is written to y. z is overwritten.
#[tactic(auto, unfolding(crate::specs::Fast::transformed))]
pub(crate) fn transform(y: &mut [f32; 960], z: &mut [f32; 960], c: &[f32; 960])
    ensures { y.new ≡ transformed single (of c.now) z.old }
{
    stage5(y, c, z);
    stage3(z, c, y);
    stage4(y, c, z);
    stage2(z, c, y);
    last_stage(y, c, z);
}
