// A binary heap of the waiting slots of a queue. Its top is place 0, and below place k are the places 2k + 1 and 2k + 2.
ghost use Rattle.std.specs.Prelude.{◌≡◌, ◌+◌, ◌*◌, ◌^◌, ◌<◌, ◌≤◌, length, slice_index, slice_set};
ghost use Rattle.queues.specs.Slots.{SlotOffer, SlotTake, Chosen};
ghost use Rattle.heap_queue.specs.Heaps.{slot_at, place_of, leads as is_ahead, Indexed, Ordered, Rising, Sinking, Leading, Exchanged};

use grades::Order;
use grades::key::Key;
use queues::row::{ahead_at, offer_slot, waits_at};
use queues::slot::{Offer, Slot};

#[derive(Drop)]
pub(crate) struct Heap<'h, 'p> {
    // the waiting slots in heap order, in the first `count` places
    pub(crate) order: &'h mut [usize],
    // for each waiting slot its place there
    pub(crate) place: &'p mut [usize],
    pub(crate) count: usize,
}

impl Heap<'_, '_> {
    // Whether the slot at place i is to be taken before the one at place j.
    #[tactic(auto, unfolding(crate::specs::Heaps::leads))]
    fn leads<G: Order>(&self, slots: &[Slot<G>], i: usize, j: usize) -> bool
        requires i_in_bounds { i < length self.now.order.now }
        requires j_in_bounds { j < length self.now.order.now }
        ensures { result ≡ is_ahead G.Order.as_good slots.now (slot_at self.now i) (slot_at self.now j) }
    {
        ahead_at(slots, self.order[i], self.order[j])
    }

    // Exchanges the slots at two places.
    fn exchange(&mut self, i: usize, j: usize)
        requires i_in_bounds { i < length self.old.order.now }
        requires j_in_bounds { j < length self.old.order.now }
        requires i_slot { slot_at self.old i < length self.old.place.now }
        requires j_slot { slot_at self.old j < length self.old.place.now }
        ensures { Exchanged self.old self.new i j }
    {
        self.order.swap(i, j);
        self.place[self.order[i]] = i;
        self.place[self.order[j]] = j;
    }

    // Moves the slot at place `start` up until it stands in order.
    fn sift_up<G: Order>(&mut self, slots: &[Slot<G>], start: usize)
        requires within { start < self.old.count }
        requires indexed { Indexed slots.now self.old }
        requires rising { Rising G.Order.as_good slots.now self.old start }
        ensures indexed { Indexed slots.now self.new }
        ensures ordered { Ordered G.Order.as_good slots.now self.new }
    {
        let mut i = start;
        while i > 0 {
            let above = (i - 1) / 2;
            if !self.leads(slots, i, above) {
                return;
            }
            self.exchange(i, above);
            i = above;
        }
    }

    // Of a place and the two below it, the one whose slot is to be taken first.
    #[tactic(auto, using(crate::proofs::Heaping::leads_irrefl))]
    fn leader<G: Order>(&self, slots: &[Slot<G>], i: usize) -> usize
        requires within { i ≤ self.now.count }
        requires long { self.now.count ≤ length self.now.order.now }
        ensures { Leading G.Order.as_good slots.now self.now i self.now.count result }
    {
        let below = 2 * i + 1;
        let mut first = i;
        for j in below..self.count.min(below + 2) {
            if self.leads(slots, j, first) {
                first = j;
            }
        }
        first
    }

    // Moves the slot at the top down until it stands in order.
    fn sift_down<G: Order>(&mut self, slots: &[Slot<G>])
        requires indexed { Indexed slots.now self.old }
        requires sinking { Sinking G.Order.as_good slots.now self.old 0 }
        ensures indexed { Indexed slots.now self.new }
        ensures ordered { Ordered G.Order.as_good slots.now self.new }
    {
        let mut i = 0;
        loop {
            let first = self.leader(slots, i);
            if first == i {
                return;
            }
            self.exchange(i, first);
            i = first;
        }
    }

    // Puts a slot at the end.
    fn append(&mut self, slot: usize)
        requires room { self.old.count < length self.old.order.now }
        requires slot_room { slot < length self.old.place.now }
        ensures count { self.new.count ≡ self.old.count + 1 }
        ensures order { self.new.order.now ≡ slice_set self.old.order.now self.old.count slot }
        ensures place { self.new.place.now ≡ slice_set self.old.place.now slot self.old.count }
    {
        self.order[self.count] = slot;
        self.place[slot] = self.count;
        self.count += 1;
    }

    // Offers a key to a slot.
    pub(crate) fn offer<G: Order>(
        &mut self,
        slots: &mut [Slot<G>],
        slot: usize,
        key: &Key<G>,
    ) -> Offer
        requires indexed { Indexed slots.old self.old }
        requires ordered { Ordered G.Order.as_good slots.old self.old }
        ensures offer { SlotOffer G.Order.as_good slots.old slot key.now slots.new result }
        ensures indexed { Indexed slots.new self.new }
        ensures ordered { Ordered G.Order.as_good slots.new self.new }
    {
        let waited = waits_at(slots, slot);
        let answer = offer_slot(slots, slot, key);
        let Offer::Changed = answer else {
            return answer;
        };
        if !waited {
            self.append(slot);
        }
        let start = self.place[slot];
        self.sift_up(slots, start);
        answer
    }

    // Ends the waiting of the slot that is to be taken first.
    pub(crate) fn take<G: Order>(&mut self, slots: &mut [Slot<G>]) -> Option<usize>
        requires indexed { Indexed slots.old self.old }
        requires ordered { Ordered G.Order.as_good slots.old self.old }
        ensures takes { SlotTake slots.old slots.new result }
        ensures chosen { Chosen G.Order.as_good slots.old result }
        ensures indexed { Indexed slots.new self.new }
        ensures ordered { Ordered G.Order.as_good slots.new self.new }
    {
        let last = self.count.checked_sub(1)?;
        let first = self.order[0];
        self.exchange(0, last);
        slots[first] = None;
        self.count = last;
        self.sift_down(slots);
        Some(first)
    }
}
