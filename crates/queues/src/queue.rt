// What every waiting queue does.
ghost use Rattle.std.specs.Prelude.{◌≡◌, length};
ghost use Rattle.queues.specs.Slots.{Model, cleared, Offers, Takes, Chosen};

use crate::slot::Offer;
use grades::Order;
use grades::key::Key;

pub trait Queue<G: Order> {
    ghost model: { Self → Model G };

    fn clear(&mut self)
        ensures { model self.new ≡ cleared (model self.old) };

    fn offer(&mut self, slot: usize, key: &Key<G>) -> Offer
        ensures { Offers G.Order.as_good (model self.old) slot key.now (model self.new) result };

    fn take(&mut self) -> Option<usize>
        ensures takes { Takes (model self.old) (model self.new) result }
        ensures chosen { Chosen G.Order.as_good (model self.old).slots result };

    fn slots(&self) -> usize
        ensures { result ≡ length (model self.now).slots };

    fn taken(&self) -> u64
        ensures { result ≡ (model self.now).taken };
}
