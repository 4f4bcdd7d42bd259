// The gap of a route as a grade: it starts at 65,535, takes the smaller of itself and the link's gap, and more is better.
ghost use Rattle.std.specs.Prelude.{min, nat_le};
ghost use Rattle.grades.specs.Gaps.{wide};
ghost use Rattle.std.proofs.Common.{rules};

use crate::{Grade, LinkCost, Order};

#[derive(Clone, Copy, PartialEq, Eq, Debug)]
pub struct Gap {
    pub value: u16,
}

impl Order for Gap {
    ghost as_good = { λ a b. nat_le b.value a.value };

    ghost total = { Prim.search rules };

    ghost transitive = { Prim.search rules };

    fn as_good(&self, other: &Gap) -> bool {
        other.value <= self.value
    }
}

impl Grade for Gap {
    ghost initial = { wide 65535 };

    ghost after = { λ a c. wide (min a.value c.gap) };

    ghost worsens = { Prim.search rules };

    ghost monotone = { Prim.search rules };

    fn start() -> Gap {
        Gap { value: u16::MAX }
    }

    fn step(self, cost: LinkCost) -> Gap {
        Gap {
            value: self.value.min(cost.gap),
        }
    }
}
