// Replays a fixed list of the Rust's answers through the functions of the static library, and reports how many agree.
// The list comes on standard input; oracle/src/bin/vectors.rs makes it and describes its form. All NaNs count as equal,
// and so do both zeros.
#![tactic(auto)]

ghost use Rattle.std.specs.Prelude.{◌+◌, ◌<◌, ◌≤◌, ◌^◌, length};

use export::{of_bands, of_pitch};
use std::io;
use std::io::Read;

// The longest list of a record, in numbers.
const ROOM: usize = 2048;

// The longest input, in bytes.
const SPACE: usize = 400000;

// Word i of the list, the low byte first; 0 after its end.
fn word(bytes: &[u8], i: usize) -> u32 {
    if bytes.len() / 4 <= i {
        return 0;
    }
    let at = 4 * i;
    u32::from_le_bytes([bytes[at], bytes[at + 1], bytes[at + 2], bytes[at + 3]])
}

// The float with these bits; any NaN gives the one NaN.
#[tactic(auto, using(numbers::proofs::NoNan::real_pattern))]
fn float(bits: u32) -> f32 {
    if bits % 0x8000_0000 > 0x7f80_0000 {
        return 0.0 / 0.0;
    }
    f32::from_bits(bits)
}

// Word i as a number.
fn number(bytes: &[u8], i: usize) -> usize {
    word(bytes, i) as usize
}

// The length of the list at this place, cut to the room for it.
fn size(bytes: &[u8], at: usize) -> usize
    ensures { result ≤ 2048 }
{
    number(bytes, at).min(ROOM)
}

// The place after the list at this place.
fn after(bytes: &[u8], at: usize) -> usize
    requires { at < 2 ^ 62 }
    ensures { (at < result) × (result ≤ at + 2049) }
{
    at + 1 + size(bytes, at)
}

// The place after the lists at this place. Their number comes before them; at most four are skipped.
fn behind(bytes: &[u8], at: usize) -> usize
    requires { at < 2 ^ 40 }
    ensures { (at < result) × (result < at + 16384) }
{
    let mut end = at + 1;
    for i in 0..number(bytes, at).min(4) {
        end = after(bytes, end);
    }
    end
}

// Copies the list at this place.
fn load(to: &mut [f32], bytes: &[u8], at: usize)
    requires { (at < 2 ^ 62) × (length to.old ≤ 2048) }
{
    for (i, x) in to.iter_mut().enumerate() {
        *x = float(word(bytes, at + i));
    }
}

// Whether two floats are equal, or both NaN.
fn alike(x: f32, y: f32) -> bool {
    x == y || x != x && y != y
}

// Whether the list at this place is xs.
fn same(xs: &[f32], bytes: &[u8], at: usize) -> bool
    requires { (at < 2 ^ 62) × (length xs.now ≤ 2048) }
{
    if number(bytes, at) != xs.len() {
        return false;
    }
    for (i, x) in xs.iter().enumerate() {
        if !alike(*x, float(word(bytes, at + 1 + i))) {
            return false;
        }
    }
    true
}

// Calls a function by its number in the list; a is its answer buffer.
fn call(leaf: u32, a: &mut [f32], b: &[f32], c: &[f32], n: usize) -> u32 {
    match leaf {
        0 => of_bands::tuppence_band_corr(a, b, c),
        1 => of_bands::tuppence_band_gain(a, b),
        2 => of_bands::tuppence_dct(a, b),
        3 => of_bands::tuppence_window(a, b),
        4 => of_bands::tuppence_window_in_place(a),
        5 => of_pitch::tuppence_inner_prod(a, b, c, n),
        6 => of_pitch::tuppence_lpc(a, b),
        7 => of_pitch::tuppence_pitch_xcorr(a, b, c),
        9 => of_pitch::tuppence_fir5(a, b),
        10 => of_pitch::tuppence_autocorr(a, b),
        11 => of_pitch::tuppence_downsample(a, b),
        _ => 99,
    }
}

// Copies the list at this place to the front of the room for it.
fn fill(to: &mut [f32; ROOM], bytes: &[u8], at: usize)
    requires { at < 2 ^ 61 }
{
    let n = size(bytes, at);
    load(&mut to[0..n], bytes, at + 1);
}

// Copies the first three lists of the record at this place.
fn fill_three(
    bytes: &[u8],
    at: usize,
    a: &mut [f32; ROOM],
    b: &mut [f32; ROOM],
    c: &mut [f32; ROOM],
)
    requires { at < 2 ^ 39 }
{
    let second = after(bytes, at + 2);
    let third = after(bytes, second);
    fill(a, bytes, at + 2);
    fill(b, bytes, second);
    fill(c, bytes, third);
}

// Makes the call of the record at this place, of a function that answers with floats.
fn call_in(bytes: &[u8], at: usize, a: &mut [f32; ROOM], b: &[f32; ROOM], c: &[f32; ROOM]) -> u32
    requires { at < 2 ^ 39 }
{
    let second = after(bytes, at + 2);
    let third = after(bytes, second);
    let n = number(bytes, after(bytes, third) + 1);
    let a_end = size(bytes, at + 2);
    let b_end = size(bytes, second);
    let c_end = size(bytes, third);
    call(
        word(bytes, at),
        &mut a[0..a_end],
        &b[0..b_end],
        &c[0..c_end],
        n,
    )
}

// Whether the record at this place expects this number and this answer.
fn expects(bytes: &[u8], at: usize, got: u32, a: &[f32; ROOM]) -> bool
    requires { at < 2 ^ 39 }
{
    let expected = behind(bytes, at + 1);
    let n = size(bytes, at + 2);
    got == word(bytes, expected + 2) && same(&a[0..n], bytes, expected + 3)
}

// Whether the call of the record at this place agrees, with lent buffers.
fn floats_in(
    bytes: &[u8],
    at: usize,
    a: &mut [f32; ROOM],
    b: &mut [f32; ROOM],
    c: &mut [f32; ROOM],
) -> bool
    requires { at < 2 ^ 39 }
{
    fill_three(bytes, at, a, b, c);
    let got = call_in(bytes, at, a, b, c);
    expects(bytes, at, got, a)
}

// The same with buffers of its own.
fn replay_floats(bytes: &[u8], at: usize) -> bool
    requires { at < 2 ^ 39 }
{
    let mut a = [0.0f32; ROOM];
    let mut b = [0.0f32; ROOM];
    let mut c = [0.0f32; ROOM];
    floats_in(bytes, at, &mut a, &mut b, &mut c)
}

// Makes the call of the record at this place, of find_best_pitch.
fn best_in(
    bytes: &[u8],
    at: usize,
    p: &mut [u64; 2],
    x: &mut [f32; ROOM],
    y: &mut [f32; ROOM],
) -> u32
    requires { at < 2 ^ 39 }
{
    let second = after(bytes, at + 2);
    let third = after(bytes, second);
    let len = number(bytes, after(bytes, third) + 1);
    fill(x, bytes, second);
    fill(y, bytes, third);
    let x_end = size(bytes, second);
    let y_end = size(bytes, third);
    of_pitch::tuppence_find_best_pitch(p, &x[0..x_end], &y[0..y_end], len)
}

// Whether the record at this place expects this number and these two lags.
fn expects_pitches(bytes: &[u8], at: usize, got: u32, p: [u64; 2]) -> bool
    requires { at < 2 ^ 39 }
{
    let expected = behind(bytes, at + 1);
    got == word(bytes, expected + 2)
        && p[0] == number(bytes, expected + 4) as u64
        && p[1] == number(bytes, expected + 5) as u64
}

// Whether the call of the record at this place agrees, with lent buffers.
fn pitches_in(
    bytes: &[u8],
    at: usize,
    p: &mut [u64; 2],
    x: &mut [f32; ROOM],
    y: &mut [f32; ROOM],
) -> bool
    requires { at < 2 ^ 39 }
{
    let got = best_in(bytes, at, p, x, y);
    expects_pitches(bytes, at, got, *p)
}

// The same with buffers of its own, for find_best_pitch, which answers with two numbers.
fn replay_pitches(bytes: &[u8], at: usize) -> bool
    requires { at < 2 ^ 39 }
{
    let mut p = [number(bytes, at + 3) as u64, number(bytes, at + 4) as u64];
    let mut x = [0.0f32; ROOM];
    let mut y = [0.0f32; ROOM];
    pitches_in(bytes, at, &mut p, &mut x, &mut y)
}

// Whether the record at this place agrees.
fn replay_one(bytes: &[u8], at: usize) -> bool
    requires { at < 2 ^ 39 }
{
    if word(bytes, at) == 8 {
        return replay_pitches(bytes, at);
    }
    replay_floats(bytes, at)
}

// Prints how many calls there were and how many agree.
fn tell(rt: &impl Print, calls: u64, agree: u64) -> io::Result<()> {
    println!(rt; "{calls} calls replayed, {agree} agree")
}

// Replays the whole list.
fn replay(rt: &impl Print, bytes: &[u8]) -> io::Result<()> {
    if SPACE < bytes.len() {
        return Ok(());
    }
    let mut at = 0;
    let mut calls: u64 = 0;
    let mut agree: u64 = 0;
    while at < bytes.len() / 4 {
        if replay_one(bytes, at) {
            agree += 1;
        }
        calls += 1;
        at = behind(bytes, behind(bytes, at + 1));
    }
    tell(rt, calls, agree)
}

fn main(rt: HostRuntime) -> io::Result<()> {
    let mut bytes = Vec::new(rt.alloc());
    rt.reader().take(SPACE as u64).read_to_end(&mut bytes)?;
    replay(&rt, &bytes[..])
}
