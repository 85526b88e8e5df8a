// The four calls of a frame over its part of one share of the store: 3,778 numbers, that know of no side. What is
// refused changes nothing.
#![tactic(auto)]

ghost use Rattle.std.specs.Prelude.{◌≡◌, [], ◌∷◌, length};
ghost use Rattle.frame.specs.Effect.{Worked};
ghost use Rattle.frame.specs.Frame.{call1, call2, call3, call4};
ghost use Rattle.frame.specs.Reply.{one_more};
ghost use Rattle.frame.specs.Answer.{as_reply};

mod answer;
mod heard;
mod input;
mod lagged;
mod output;

pub use answer::{Cause, Told};
pub use heard::check;
use numbers::Memory;
use rules::Refusal;

// How long ago the pitch was, in samples.
#[derive(Clone, Copy)]
pub struct Lag(pub usize);

// A bench's way, settled by its opening: what requests 04 and 08 ask, our own lag and the plain sums; or the crate's
// own, its finder and the fast transforms.
#[derive(Clone, Copy)]
pub enum Way {
    Own,
    Nnnoiseless,
}

// What a bench needs to hear a frame: where its cepstra go on, the GRU counts that its opening noted, and its way.
#[derive(Clone, Copy)]
pub struct Hearing {
    pub index: usize,
    pub vad: usize,
    pub noise: usize,
    pub denoise: usize,
    pub way: Way,
}

pub const SHARE: usize = 6144;

// What of a share is lent to a frame.
pub const PART: usize = 3778;

// One more, and 0 after the last number.
pub fn one_more(number: u32) -> u32
    ensures { result ≡ one_more number }
{
    number.wrapping_add(1)
}

// Call 1: 480 samples in, none of them broken, 960 windowed numbers written.
#[tactic(auto, using(rules::proofs::Tests::tests), unfolding(crate::specs::Frame::call1))]
pub fn call1(share: &mut [f32], samples: &[f32], window: &mut [f32]) -> Result<Told, Cause>
    ensures { Worked (call1 share.old samples.now (length window.old))
        (as_reply result) share.new (window.old ∷ []) (window.new ∷ []) }
{
    if share.len() != PART || samples.len() != 480 || window.len() != 960 {
        return Err(Cause::Plain(Refusal::WrongLength));
    }
    if !samples::all_good(samples) {
        return Err(Cause::Plain(Refusal::BadSample));
    }
    let memory = Memory {
        m0: share[3192],
        m1: share[3193],
    };
    let next = input::take_in(
        &mut share[0..1728],
        memory,
        samples.as_array().unwrap(),
        window.as_mut_array().unwrap(),
    );
    share[3192] = next.m0;
    share[3193] = next.m1;
    Ok(Told::Done)
}

// Call 2: the first spectrum and the lag in, 960 windowed numbers and 22 sums written.
#[tactic(auto, using(rules::proofs::Tests::tests), unfolding(crate::specs::Frame::call2))]
pub fn call2(
    share: &mut [f32],
    spectrum: &[f32],
    lag: Lag,
    window: &mut [f32],
    sums: &mut [f32],
) -> Result<Told, Cause>
    ensures { Worked
        (call2 share.old spectrum.now lag.0 (length window.old)
        (length sums.old))
        (as_reply result) share.new (window.old ∷ sums.old ∷ [])
        (window.new ∷ sums.new ∷ []) }
{
    if share.len() != PART || spectrum.len() != 961 || window.len() != 960 || sums.len() != 22 {
        return Err(Cause::Plain(Refusal::WrongLength));
    }
    if lag.0 > 768 {
        return Err(Cause::Plain(Refusal::LagTooLarge));
    }
    let back = lag.0;
    let from = 768 - back;
    bands::apply_window(window, &share[from..from + 960]).unwrap();
    lagged::note(
        share.as_mut_array().unwrap(),
        spectrum.as_array().unwrap(),
        Lag(back),
        sums.as_mut_array().unwrap(),
    );
    Ok(Told::Done)
}

// Call 3: the second spectrum, 22 logarithms and the model in, 961 numbers written; silent, or heard with voice and
// energy. Of the record it is told the hearing, of which it reads the cepstral index and the GRU counts.
#[tactic(auto, using(rules::proofs::Tests::tests), unfolding(crate::specs::Frame::call3))]
pub fn call3(
    share: &mut [f32],
    hearing: Hearing,
    spectrum: &[f32],
    logs: &[f32],
    model: &[u8],
    out: &mut [f32],
) -> Result<Told, Cause>
    ensures { Worked
        (call3 share.old hearing
        spectrum.now logs.now model.now (length out.old))
        (as_reply result) share.new (out.old ∷ []) (out.new ∷ []) }
{
    if share.len() != PART
        || spectrum.len() != 961
        || logs.len() != 22
        || out.len() != 961
        || hearing.index > 7
    {
        return Err(Cause::Plain(Refusal::WrongLength));
    }
    heard::check(model, hearing)?;
    Ok(heard::listen(
        share.as_mut_array().unwrap(),
        out.as_mut_array().unwrap(),
        hearing.index,
        spectrum.as_array().unwrap(),
        logs.as_array().unwrap(),
        model,
    ))
}

// Call 4: 960 inverse samples in, 480 numbers written.
#[tactic(auto, using(rules::proofs::Tests::tests), unfolding(crate::specs::Frame::call4))]
pub fn call4(share: &mut [f32], inverse: &[f32], out: &mut [f32]) -> Result<Told, Cause>
    ensures { Worked (call4 share.old inverse.now (length out.old))
        (as_reply result) share.new (out.old ∷ []) (out.new ∷ []) }
{
    if share.len() != PART || inverse.len() != 960 || out.len() != 480 {
        return Err(Cause::Plain(Refusal::WrongLength));
    }
    output::synthesise(
        &mut share[1728..2208],
        inverse.as_array().unwrap(),
        out.as_mut_array().unwrap(),
    );
    Ok(Told::Done)
}
