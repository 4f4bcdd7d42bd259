// Keys of waiting slots.
ghost use Rattle.std.specs.Prelude.{◌≡◌};
ghost use Rattle.grades.specs.Keys.{before as comes_before, upto, start_key, Extends};
ghost use Rattle.grades.specs.Keyed.{upto_through};
ghost use Rattle.std.proofs.Common.{rules};

use crate::{Grade, LinkCost, Order};

#[derive(Clone, Copy, PartialEq, Eq, Debug)]
pub struct Key<G> {
    pub grade: G,
    pub delay: u32,
    pub count: u32,
}

impl<G: Order> Key<G> {
    // Whether this key comes before the other: the better grade, then the smaller delay, then the smaller count.
    pub fn before(&self, other: &Key<G>) -> bool
        ensures { result ≡ comes_before G.Order.as_good self.now other.now }
    {
        if !self.grade.as_good(&other.grade) {
            return false;
        }
        if !other.grade.as_good(&self.grade) {
            return true;
        }
        (self.delay, self.count) < (other.delay, other.count)
    }
}

impl<G: Grade> Key<G> {
    // The key of a delay at the start grade, with no links yet.
    pub fn at_start(delay: u32) -> Key<G>
        ensures { result ≡ start_key G.Grade.initial delay }
    {
        Key {
            grade: G::start(),
            delay,
            count: 0,
        }
    }

    // The key of the route that goes on by a link; none where its delay or its count would not fit.
    pub fn extended(&self, cost: LinkCost, delay: u32) -> Option<Key<G>>
        ensures { Extends G.Order.as_good G.Grade.after self.now cost delay result }
    {
        Some(Key {
            grade: self.grade.step(cost),
            delay: self.delay.checked_add(delay)?,
            count: self.count.checked_add(1)?,
        })
    }
}

// Keys are ordered as grades are: at least as good is what comes no later.
impl<G: Order> Order for Key<G> {
    ghost as_good = { λ k l. upto G.Order.as_good k l };

    ghost total = { Prim.search rules };

    ghost transitive = { λ a b c. upto_through G.Order.as_good G.Order.total G.Order.transitive a b c };

    fn as_good(&self, other: &Key<G>) -> bool {
        !other.before(self)
    }
}
