// Lays out two models without weights and lists them: the usual hidden counts 24, 24, 48 and 96, and those of the
// largest file that reads, 84, 1, 84 and 127. Both are longer than standard input may be.
#![tactic(auto)]

ghost use Rattle.std.specs.Prelude.{◌<◌};

use model::{Cursor, Kind};
use std::io;

fn header(space: &mut [u8], at: usize, inputs: u8, neurons: u8, activation: u8) {
    if space.len() < 3 {
        return;
    }
    if space.len() - 3 < at {
        return;
    }
    space[at] = inputs;
    space[at + 1] = neurons;
    space[at + 2] = activation;
}

// A layer at the cursor, and the cursor behind it.
// Stays: the activation is the byte of the header that is laid out, so an `Activation` is no plainer.
fn layer(
    space: &mut [u8],
    c: Cursor,
    kind: Kind,
    inputs: u8,
    neurons: u8,
    activation: u8,
) -> Cursor {
    let at = c.at;
    header(space, at, inputs, neurons, activation);
    match c.layer(&space[..], kind) {
        Ok((_, next)) => next,
        Err(_) => c,
    }
}

// input_dense, vad_gru and noise_gru.
// Stays: front, back and show get the counts one by one, each of them others. A struct of the four, with the bound as a
// fact, is no plainer.
fn front(space: &mut [u8], a: u8, b: u8, c: u8) -> Cursor
    requires { (a < 100) × (b < 100) }
{
    let mut at = Cursor::start();
    at = layer(space, at, Kind::Dense, 42, a, 0);
    at = layer(space, at, Kind::Gru, a, b, 0);
    layer(space, at, Kind::Gru, 42 + a + b, c, 0)
}

// denoise_gru, denoise_output and vad_output.
fn back(space: &mut [u8], from: Cursor, b: u8, c: u8, d: u8)
    requires { (b < 100) × (c < 100) }
{
    let mut at = from;
    at = layer(space, at, Kind::Gru, 42 + b + c, d, 0);
    at = layer(space, at, Kind::Dense, d, 22, 1);
    layer(space, at, Kind::Dense, b, 1, 1);
}

fn show(rt: &impl Print, space: &mut [u8], a: u8, b: u8, c: u8, d: u8) -> io::Result<()>
    requires { (a < 100) × (b < 100) × (c < 100) }
{
    let at = front(space, a, b, c);
    back(space, at, b, c, d);
    listing::list(rt, &space[..])
}

// Stays: usual and largest differ in their numbers alone, and their names say what these are. With one function for
// both, `main` would hold the numbers without a name, which is no plainer.
fn usual(rt: &impl Print) -> io::Result<()> {
    let mut space = [0u8; 87521];
    show(rt, &mut space, 24, 24, 48, 96)
}

fn largest(rt: &impl Print) -> io::Result<()> {
    let mut space = [0u8; 157285];
    show(rt, &mut space, 84, 1, 84, 127)
}

fn main(rt: HostRuntime) -> io::Result<()> {
    usual(&rt)?;
    largest(&rt)
}
