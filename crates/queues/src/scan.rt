// A queue that looks through all slots.
ghost use Rattle.std.specs.Prelude.{◌≡◌, length, replicate, None, MatchOption};
ghost use Rattle.queues.specs.Slots.{Model, First, NoneWaits, SlotTake, Chosen};

use crate::queue::Queue;
use crate::row::{ahead_at, idle_all, offer_slot, one_more, waits_at};
use crate::slot::{Offer, Slot};
use grades::Order;
use grades::key::Key;

#[derive(Drop)]
pub struct ScanQueue<'k, G> {
    slots: &'k mut [Slot<G>],
    taken: u64,
}

impl<'k, G: Order> ScanQueue<'k, G> {
    // A queue with a slot for each entry of the memory, of which none waits.
    pub fn new(slots: &'k mut [Slot<G>]) -> ScanQueue<'k, G>
        ensures slots { result.slots.now ≡ replicate (length slots.old) None }
        ensures taken { result.taken ≡ 0 }
    {
        idle_all(slots);
        ScanQueue { slots, taken: 0 }
    }
}

// The waiting slot that is to be taken first.
fn first_waiting<G: Order>(slots: &[Slot<G>]) -> Option<usize>
    ensures { MatchOption result (NoneWaits slots.now) (λ s. First G.Order.as_good slots.now s) }
{
    let mut first = 0;
    for i in 0..slots.len() {
        if ahead_at(slots, i, first) {
            first = i;
        }
    }
    waits_at(slots, first).then_some(first)
}

// Ends the waiting of the slot that is to be taken first.
fn take_first<G: Order>(slots: &mut [Slot<G>]) -> Option<usize>
    ensures takes { SlotTake slots.old slots.new result }
    ensures chosen { Chosen G.Order.as_good slots.old result }
{
    let first = first_waiting(slots)?;
    slots[first] = None;
    Some(first)
}

impl<'k, G: Order> Queue<G> for ScanQueue<'k, G> {
    ghost model = { λ q. record { slots = q.slots.now; taken = q.taken } };

    fn clear(&mut self) {
        idle_all(self.slots);
        self.taken = 0;
    }

    fn offer(&mut self, slot: usize, key: &Key<G>) -> Offer {
        offer_slot(self.slots, slot, key)
    }

    fn take(&mut self) -> Option<usize> {
        let first = take_first(self.slots)?;
        self.taken = one_more(self.taken);
        Some(first)
    }

    fn slots(&self) -> usize {
        self.slots.len()
    }

    fn taken(&self) -> u64 {
        self.taken
    }
}
