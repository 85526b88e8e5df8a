// The activations of each number of a list, in place, over a table that is lent: `table::all` is taken once for all
// lists, since each mention of it fills it anew. The table is looked up number by number; what comes before that and
// behind it are loops of their own, since these are vectorised.
// Stays: a list and its spare room go side by side. places and entries write the room and read the list, and curves
// writes the list and reads the room, so a struct of both is no plainer.
ghost use Rattle.std.specs.Prelude.{◌≡◌, map, length};
ghost use Rattle.std.specs.Float.Ieee.{Float};
ghost use Rattle.rules.specs.F32.{at};
ghost use Rattle.rules.specs.Tab.{tab};
ghost use Rattle.numbers.specs.Larger.{rectified};
ghost use Rattle.numbers.specs.Activations.{tansig_in, sigmoid_in};
ghost use Rattle.numbers.specs.Private.{place_in, entry_in, followed};

// Each number's place in the table, as a float.
fn places(spare: &mut [f32], xs: &[f32])
    requires { length spare.old ≡ length xs.now }
    ensures { spare.new ≡ tab (length xs.now) (λ j. place_in (at xs.now j)) }
{
    for (j, place) in spare.iter_mut().enumerate() {
        *place = crate::place_of(crate::inside(xs[j]));
    }
}

// From the places to the table's entries there.
fn entries(spare: &mut [f32], xs: &[f32], table: &[f32; 201])
    requires { spare.old ≡ tab (length xs.now) (λ j. place_in (at xs.now j)) }
    ensures { spare.new
        ≡ tab (length xs.now) (λ j. entry_in table.now (at xs.now j)) }
{
    for (j, x) in xs.iter().enumerate() {
        spare[j] = crate::entry_at(table, spare[j], *x);
    }
}

// From the entries along the curve.
fn curves(xs: &mut [f32], spare: &[f32])
    requires { length xs.old ≡ length spare.now }
    ensures { xs.new
        ≡ tab (length xs.old) (λ j. followed (at xs.old j) (at spare.now j)) }
{
    for (j, x) in xs.iter_mut().enumerate() {
        *x = crate::follow(*x, spare[j]);
    }
}

// `tansig_approx` of each, over lent room.
fn at_once(xs: &mut [f32], spare: &mut [f32], table: &[f32; 201])
    requires { length spare.old ≡ length xs.old }
    ensures { xs.new ≡ map (tansig_in table.now) xs.old }
{
    places(spare, &xs[..]);
    entries(spare, &xs[..], table);
    curves(xs, &spare[..]);
}

// Changes each number by f. A g that is all that f gives is what it does.
fn each<F: Fn(f32) -> f32>(xs: &mut [f32], f: F)
    requires { F.IsAlwaysCallable f }
    ensures { (g : Float → Float) → ((x y : Float) → F.post f x y → y ≡ g x) → xs.new ≡ map g xs.old }
{
    for x in xs.iter_mut() {
        *x = f(*x);
    }
}

// `tansig_approx` of each.
pub fn tansigs(xs: &mut [f32], table: &[f32; 201])
    ensures { xs.new ≡ map (tansig_in table.now) xs.old }
{
    let n = xs.len();
    if 128 < n {
        each(xs, |x| crate::tansig_in(table, x));
        return;
    }
    let mut spare = [0.0f32; 128];
    at_once(xs, &mut spare[0..n], table);
}

// `sigmoid_approx` of each: halved, and then brought from between -1 and 1 to between 0 and 1.
pub fn sigmoids(xs: &mut [f32], table: &[f32; 201])
    ensures { xs.new ≡ map (sigmoid_in table.now) xs.old }
{
    each(xs, |x| 0.5 * x);
    tansigs(xs, table);
    each(xs, |x| 0.5 + 0.5 * x);
}

// `relu` of each.
pub fn relus(xs: &mut [f32])
    ensures { xs.new ≡ map rectified xs.old }
{
    each(xs, crate::relu);
}
