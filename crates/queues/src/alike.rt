// Any queue does: two queues of equal size that are cleared together and then offered and asked the same answer alike.
ghost use Rattle.std.specs.Prelude.{◌≡◌, length};

use crate::queue::Queue;
use crate::slot::Offer;
use grades::Order;
use grades::key::Key;

// Clears two queues.
pub fn clear_both<G: Order, Q: Queue<G>, R: Queue<G>>(one: &mut Q, other: &mut R)
    ensures { length (Q.Queue.model one.old).slots ≡ length (R.Queue.model other.old).slots → Q.Queue.model one.new ≡ R.Queue.model other.new }
{
    one.clear();
    other.clear();
}

// Makes one offer to two queues.
pub fn offer_both<G: Order, Q: Queue<G>, R: Queue<G>>(
    one: &mut Q,
    other: &mut R,
    slot: usize,
    key: &Key<G>,
) -> (Offer, Offer)
    ensures answers { Q.Queue.model one.old ≡ R.Queue.model other.old → result.0 ≡ result.1 }
    ensures meaning { Q.Queue.model one.old ≡ R.Queue.model other.old → Q.Queue.model one.new ≡ R.Queue.model other.new }
{
    let answer = one.offer(slot, key);
    (answer, other.offer(slot, key))
}

// Takes from two queues.
pub fn take_both<G: Order, Q: Queue<G>, R: Queue<G>>(
    one: &mut Q,
    other: &mut R,
) -> (Option<usize>, Option<usize>)
    ensures answers { Q.Queue.model one.old ≡ R.Queue.model other.old → result.0 ≡ result.1 }
    ensures meaning { Q.Queue.model one.old ≡ R.Queue.model other.old → Q.Queue.model one.new ≡ R.Queue.model other.new }
{
    let answer = one.take();
    (answer, other.take())
}
