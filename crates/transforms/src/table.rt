// The table of the cosines, read for four neighbours at once.
ghost use Rattle.std.specs.Prelude.{◌≡◌, ◌≤◌};
ghost use Rattle.transforms.specs.Cosine.{cosine};
ghost use Rattle.transforms.specs.Transform.{wave};
ghost use Rattle.transforms.specs.Private.{four_of, extended};

use crate::cosine;
use crate::lanes::Four;
use crate::places::Places;

// The cosines of one and a quarter turns, so that the place a quarter further needs no remainder.
#[derive(Drop)]
pub(crate) struct Cosines {
    // The cosines, from that of 0 on.
    table: [f32; 1200],
    ghost extended: { table ≡ extended cosine },
}

impl Cosines {
    // All of them.
    pub(crate) fn all() -> Cosines {
        let cosine = cosine::all();
        let mut table = [0.0f32; 1200];
        for (i, c) in table.iter_mut().enumerate() {
            *c = cosine[i % 960];
        }
        Cosines { table }
    }

    // The cosines at these places, or a quarter further.
    pub(crate) fn read(&self, m: Places, quarter: usize) -> Four
        requires { quarter ≤ 240 }
        ensures { result ≡ four_of (λ i. wave i m.n quarter) m.k }
    {
        Four {
            a: self.table[m.a + quarter],
            b: self.table[m.b + quarter],
            c: self.table[m.c + quarter],
            d: self.table[m.d + quarter],
        }
    }
}
