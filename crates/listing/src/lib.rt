// Lists the layers of a model on standard output, or reports why the file is refused.
#![tactic(auto)]

use std::io;
use std::io::Read;

// Prints the line of a layer: layer, inputs, neurons, activation, offset, length.
// Stays: a number for the layer, as `model::line` takes it, whose parameters may not change.
fn line(rt: &impl Print, bytes: &[u8], layer: usize) -> io::Result<()> {
    let row = model::line(bytes, layer);
    println!(rt;
        "{} {} {} {} {} {}",
        row[0], row[1], row[2], row[3], row[4], row[5]
    )
}

// Prints the size of a model and its six layers.
// Stays: the loop counts the layers. Each one's number is asked for and printed, so no form is plainer.
fn good(rt: &impl Print, bytes: &[u8]) -> io::Result<()> {
    println!(rt; "model {}", bytes.len())?;
    for layer in 0..6 {
        line(rt, bytes, layer)?;
    }
    println!(rt; "end")
}

// Lists the model in these bytes.
pub fn list(rt: &impl Print, bytes: &[u8]) -> io::Result<()> {
    match model::read(bytes) {
        Ok(_) => good(rt, bytes),
        Err(misread) => println!(rt; "refused {} {}", misread.refusal.number(), misread.layer),
    }
}

// Lists the model on standard input, of at most 65,536 bytes. It may arrive in pieces.
pub fn list_input(rt: &(impl Input + Print + AllocGlobal)) -> io::Result<()> {
    let mut bytes = Vec::new(rt.alloc());
    rt.reader().take(65537).read_to_end(&mut bytes)?;
    if 65536 < bytes.len() {
        return println!(rt; "too long");
    }
    list(rt, &bytes[..])
}
