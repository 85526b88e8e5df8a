// What both transforms share: eight sums, each for four neighbours, and how a product is added to them. The compiler
// keeps the sums in registers of four only because they are stored four neighbours side by side: stored directly into
// the spectrum, they take twice the time.
ghost use Rattle.std.specs.Prelude.{◌≡◌, ℕ, ◌+◌, ◌*◌, ◌%◌, ◌≤◌, ◌<◌, length, take, Float};
ghost use Rattle.rules.specs.F32.{◌⊕◌, ◌⊖◌, ◌⊗◌};
ghost use Rattle.rules.specs.Tab.{tab};
ghost use Rattle.transforms.specs.Private.{four_of, both, plus_term, sums_of, kept, Keeps};

// A number for each of four neighbours.
// Stays: in an array each would be named by its place, which is no plainer.
#[derive(Clone, Copy)]
pub(crate) struct Four {
    pub a: f32,
    pub b: f32,
    pub c: f32,
    pub d: f32,
}

// Eight sums for each of four neighbours.
// Stays: each sum turns in a way of its own (bins and samples, add_terms), so in an array the places would only be
// other names for them, which is no plainer.
#[derive(Drop)]
pub(crate) struct Sums {
    pub s0: Four,
    pub s1: Four,
    pub s2: Four,
    pub s3: Four,
    pub s4: Four,
    pub s5: Four,
    pub s6: Four,
    pub s7: Four,
}

// Adds four numbers to four.
fn plus(x: Four, y: Four) -> Four
    ensures { result ≡ both ◌⊕◌ x y }
{
    Four {
        a: x.a + y.a,
        b: x.b + y.b,
        c: x.c + y.c,
        d: x.d + y.d,
    }
}

// Subtracts four numbers from four.
fn less(x: Four, y: Four) -> Four
    ensures { result ≡ both ◌⊖◌ x y }
{
    Four {
        a: x.a - y.a,
        b: x.b - y.b,
        c: x.c - y.c,
        d: x.d - y.d,
    }
}

// Multiplies four numbers by one.
pub(crate) fn times(v: f32, y: Four) -> Four
    ensures { result ≡ both ◌⊗◌ (four_of (λ i. v) 0) y }
{
    Four {
        a: v * y.a,
        b: v * y.b,
        c: v * y.c,
        d: v * y.d,
    }
}

// The next term of sums w quarters on, of the indices ahead: by the products p, and q a quarter on. The callers' w is
// known when it is compiled.
// Stays: w is calculated by the callers, here and in `back`, so an enum of four quarters would first have to be made of
// it, and is no plainer.
#[tactic(auto, unfolding(crate::specs::Private::plus_term))]
pub(crate) fn ahead(s: Four, p: Four, q: Four, w: usize) -> Four
    ensures { result ≡ plus_term w s p q }
{
    match w % 4 {
        0 => plus(s, p),
        1 => plus(s, q),
        2 => less(s, p),
        _ => less(s, q),
    }
}

// The same of the indices back from there.
#[tactic(auto, unfolding(crate::specs::Private::plus_term))]
pub(crate) fn back(s: Four, p: Four, q: Four, w: usize) -> Four
    ensures { result ≡ plus_term (3 * w) s p q }
{
    match w % 4 {
        0 => plus(s, p),
        1 => less(s, q),
        2 => less(s, p),
        _ => plus(s, q),
    }
}

// Sums that are all v.
#[tactic(auto, unfolding(crate::specs::Private::sums_of))]
pub(crate) fn all_of(v: f32) -> Sums
    ensures { result ≡ sums_of (λ s k. v) 0 }
{
    let f = Four {
        a: v,
        b: v,
        c: v,
        d: v,
    };
    Sums {
        s0: f,
        s1: f,
        s2: f,
        s3: f,
        s4: f,
        s5: f,
        s6: f,
        s7: f,
    }
}

// Stores the next four numbers of a list.
#[tactic(auto, using(crate::proofs::Stored::four_stored))]
fn put_four(parts: &mut [f32; 992], at: usize, v: Four)
    requires { at + 4 ≤ 992 }
    ensures { (f : ℕ → Float) → v ≡ four_of f at
        → take at parts.old ≡ tab at f → take (at + 4) parts.new ≡ tab (at + 4) f }
{
    parts[at] = v.a;
    parts[at + 1] = v.b;
    parts[at + 2] = v.c;
    parts[at + 3] = v.d;
}

// Stores the sums of the next four neighbours.
pub(crate) fn put(parts: &mut [f32; 992], at: usize, s: Sums)
    requires { at + 32 ≤ 992 }
    ensures { (f : ℕ → ℕ → Float) (g : ℕ) → at ≡ 32 * g → s ≡ sums_of f (4 * g)
        → Keeps f at parts.old → Keeps f (at + 32) parts.new }
{
    let b = at + 4;
    let c = b + 4;
    let d = c + 4;
    let e = d + 4;
    let f = e + 4;
    let g = f + 4;
    let h = g + 4;
    put_four(parts, at, s.s0);
    put_four(parts, b, s.s1);
    put_four(parts, c, s.s2);
    put_four(parts, d, s.s3);
    put_four(parts, e, s.s4);
    put_four(parts, f, s.s5);
    put_four(parts, g, s.s6);
    put_four(parts, h, s.s7);
}

// Where sum s of neighbour k is kept.
// Stays: `k < 124` is asked here, and by Places::of_0, bins::Run::begin and bins::four_bins. A `Places` has it as a
// fact, but these come before there is one, or need none, so one in place of k is no plainer.
pub(crate) fn spot(s: usize, k: usize) -> usize
    requires { (s < 8) × (k < 124) }
    ensures { (result < 992) × ((f : ℕ → ℕ → Float) → kept f result ≡ f s k) }
{
    k / 4 * 32 + 4 * s + k % 4
}
