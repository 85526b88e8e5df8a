// The forward and the inverse 960-point real transforms of `transforms`, but fast: through a complex transform of 480
// numbers in stages (stages), with the one table of 960 cosines. Without rounding they would be the plain sums of
// `transforms`. Both refuse other lengths than those of their arrays as WrongLength, and then change nothing.
// Stays: forward and inverse have the shape of those of `transforms`. All four are public and keep their names, and
// they share no more than the test of the lengths.
#![tactic(auto)]

ghost use Rattle.std.specs.Prelude.{◌≡◌, length, Ok, Err};
ghost use Rattle.rules.specs.Leaf.{Leaf, ◌leaving◌};
ghost use Rattle.rules.specs.declared.refusal.Refusal.TheVariants.{WrongLength};
ghost use Rattle.transforms.specs.Transform.{ForwardFits, InverseFits};
ghost use Rattle.fft.specs.Single.{fast_forward, fast_inverse};

use rules::Refusal;

mod bins;
mod complex;
mod forwards;
mod inverses;
mod puts;
mod stages;

// `forward` for lengths that fit.
#[tactic(auto, unfolding(crate::specs::Single::fast_forward, crate::specs::Fast::forward_over))]
fn forward_core(out: &mut [f32; 961], x: &[f32; 960])
    ensures { out.new ≡ fast_forward x.now }
{
    let cosine = transforms::cosine::all();
    let mut y = [0.0f32; 960];
    let mut z = [0.0f32; 960];
    forwards::pack(&mut z, x);
    stages::transform(&mut y, &mut z, &cosine);
    forwards::spectrum(out, &cosine, &y);
}

// The spectrum of 960 samples.
pub fn forward(out: &mut [f32], x: &[f32]) -> Result<(), Refusal>
    ensures { Leaf (ForwardFits (length out.old) (length x.now))
        (result leaving out.new)
        (Ok tt leaving fast_forward x.now)
        (Err WrongLength leaving out.old) }
{
    let (Some(out), Some(x)) = (out.as_mut_array::<961>(), x.as_array::<960>()) else {
        return Err(Refusal::WrongLength);
    };
    forward_core(out, x);
    Ok(())
}

// `inverse` for lengths that fit.
#[tactic(auto, unfolding(crate::specs::Single::fast_inverse, crate::specs::Fast::inverse_over))]
fn inverse_core(out: &mut [f32; 960], x: &[f32; 961])
    ensures { out.new ≡ fast_inverse x.now }
{
    let cosine = transforms::cosine::all();
    let mut y = [0.0f32; 960];
    let mut z = [0.0f32; 960];
    inverses::merge_all(&mut z, &cosine, x);
    stages::transform(&mut y, &mut z, &cosine);
    inverses::samples(out, &y);
}

// The samples of a spectrum, times 960: bins 1 to 479 count twice, bin 0 and the real part of bin 480 once.
pub fn inverse(out: &mut [f32], x: &[f32]) -> Result<(), Refusal>
    ensures { Leaf (InverseFits (length out.old) (length x.now))
        (result leaving out.new)
        (Ok tt leaving fast_inverse x.now)
        (Err WrongLength leaving out.old) }
{
    let (Some(out), Some(x)) = (out.as_mut_array::<960>(), x.as_array::<961>()) else {
        return Err(Refusal::WrongLength);
    };
    inverse_core(out, x);
    Ok(())
}
