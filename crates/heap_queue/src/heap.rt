// A queue as a binary heap in the caller's memory.
ghost use Rattle.std.specs.Prelude.{◌≡◌, min, length, replicate, None};
ghost use Rattle.queues.specs.Slots.{Model};
ghost use Rattle.heap_queue.specs.Heaps.{Indexed, Ordered};

use crate::binary_heap::Heap;
use grades::Order;
use grades::key::Key;
use queues::queue::Queue;
use queues::row::{idle_all, one_more};
use queues::slot::{Offer, Slot};

#[derive(Drop)]
pub struct HeapQueue<'s, 'h, 'p, G: Order> {
    // the state of each slot
    slots: &'s mut [Slot<G>],
    // the waiting slots
    heap: Heap<'h, 'p>,
    taken: u64,
    ghost indexed: { Indexed slots.now heap },
    ghost ordered: { Ordered G.Order.as_good slots.now heap },
}

impl<'s, 'h, 'p, G: Order> HeapQueue<'s, 'h, 'p, G> {
    // A queue with as many slots as the shortest memory has entries, of which none waits.
    pub fn new(
        slots: &'s mut [Slot<G>],
        heap: &'h mut [usize],
        place: &'p mut [usize],
    ) -> HeapQueue<'s, 'h, 'p, G>
        ensures slots { result.slots.now ≡ replicate (min (length slots.old) (min (length heap.old) (length place.old))) None }
        ensures taken { result.taken ≡ 0 }
    {
        let n = slots.len().min(heap.len()).min(place.len());
        let slots = &mut slots[..n];
        idle_all(slots);
        let heap = Heap {
            order: &mut heap[..n],
            place: &mut place[..n],
            count: 0,
        };
        HeapQueue {
            slots,
            heap,
            taken: 0,
        }
    }
}

impl<'s, 'h, 'p, G: Order> Queue<G> for HeapQueue<'s, 'h, 'p, G> {
    ghost model = { λ q. record { slots = q.slots.now; taken = q.taken } };

    fn clear(&mut self) {
        idle_all(self.slots);
        self.heap.count = 0;
        self.taken = 0;
    }

    fn offer(&mut self, slot: usize, key: &Key<G>) -> Offer {
        self.heap.offer(self.slots, slot, key)
    }

    fn take(&mut self) -> Option<usize> {
        let first = self.heap.take(self.slots)?;
        self.taken = one_more(self.taken);
        Some(first)
    }

    fn slots(&self) -> usize {
        self.slots.len()
    }

    fn taken(&self) -> u64 {
        self.taken
    }
}
