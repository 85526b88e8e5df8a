// Where the cosines of four neighbours stand in the turn.
ghost use Rattle.std.specs.Prelude.{◌≡◌, ◌+◌, ◌*◌, ◌%◌, ◌<◌};

// The places of k * n to (k + 3) * n in the turn of 960.
// Stays: four names, as in lanes::Four, whose numbers they are the places of. An array is no plainer.
#[derive(Clone, Copy)]
pub(crate) struct Places {
    // The first of the four neighbours.
    pub k: usize,
    // What each of them is multiplied by.
    pub n: usize,
    // The place of each.
    pub a: usize,
    pub b: usize,
    pub c: usize,
    pub d: usize,
    ghost small: { k < 124 },
    ghost first: { a ≡ (k * n) % 960 },
    ghost second: { b ≡ ((k + 1) * n) % 960 },
    ghost third: { c ≡ ((k + 2) * n) % 960 },
    ghost fourth: { d ≡ ((k + 3) * n) % 960 },
}

// A place that may be after the end of the turn, as one within it.
fn wrapped(m: usize) -> usize
    requires { m < 1920 }
    ensures { result ≡ m % 960 }
{
    if 960 <= m { m - 960 } else { m }
}

impl Places {
    // The places of the products with 0.
    pub(crate) fn of_0(k: usize) -> Places
        requires { k < 124 }
        ensures { (result.k ≡ k) × (result.n ≡ 0) }
    {
        Places {
            k,
            n: 0,
            a: 0,
            b: 0,
            c: 0,
            d: 0,
        }
    }

    // From the products with n to those with n + 1.
    pub(crate) fn next(self) -> Places
        requires { self.n < 960 }
        ensures { (result.k ≡ self.k) × (result.n ≡ self.n + 1) }
    {
        Places {
            k: self.k,
            n: self.n + 1,
            a: wrapped(self.a + self.k),
            b: wrapped(self.b + (self.k + 1)),
            c: wrapped(self.c + (self.k + 2)),
            d: wrapped(self.d + (self.k + 3)),
        }
    }
}
