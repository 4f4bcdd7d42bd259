// What every queue over a row of slots in the caller's memory does to it, whichever index it keeps beside it.
ghost use Rattle.std.specs.Prelude.{◌≡◌, ◌+◌, ◌-◌, ◌^◌, min, length, replicate, None};
ghost use Rattle.queues.specs.Slots.{at, ahead as is_ahead, waits as is_waiting, yields as gives_way, SlotOffer};

use crate::slot::{Offer, Slot};
use grades::Order;
use grades::key::Key;

// The state of a slot; one past the end is idle.
fn state_at<G: Order>(slots: &[Slot<G>], slot: usize) -> Slot<G>
    ensures { result ≡ at slots.now slot }
{
    slots.get(slot).copied().flatten()
}

// Whether a slot waits; one past the end does not.
pub fn waits_at<G: Order>(slots: &[Slot<G>], slot: usize) -> bool
    ensures { result ≡ is_waiting (at slots.now slot) }
{
    state_at(slots, slot).is_some()
}

// Whether slot i is to be taken before slot j; one past the end does not wait.
pub fn ahead_at<G: Order>(slots: &[Slot<G>], i: usize, j: usize) -> bool
    ensures { result ≡ is_ahead G.Order.as_good i (at slots.now i) j (at slots.now j) }
{
    let Some(key) = state_at(slots, i) else {
        return false;
    };
    let Some(other) = state_at(slots, j) else {
        return true;
    };
    key.before(&other) || (!other.before(&key) && i < j)
}

// Whether a slot is changed by an offer of the key.
fn yields<G: Order>(slot: Slot<G>, key: &Key<G>) -> bool
    ensures { result ≡ gives_way G.Order.as_good slot key.now }
{
    slot.is_none_or(|present| key.before(&present))
}

// Offers a key to a slot.
pub fn offer_slot<G: Order>(slots: &mut [Slot<G>], slot: usize, key: &Key<G>) -> Offer
    ensures { SlotOffer G.Order.as_good slots.old slot key.now slots.new result }
{
    if slot >= slots.len() {
        return Offer::NoSlot;
    }
    if !yields(slots[slot], key) {
        return Offer::Kept;
    }
    slots[slot] = Some(*key);
    Offer::Changed
}

// Ends the waiting of every slot.
pub fn idle_all<G: Order>(slots: &mut [Slot<G>])
    ensures { slots.new ≡ replicate (length slots.old) None }
{
    slots.fill(None);
}

// The number taken after one more slot was taken.
pub fn one_more(taken: u64) -> u64
    ensures { result ≡ min (taken + 1) (2 ^ 64 - 1) }
{
    taken.saturating_add(1)
}
