use crate::heap::HeapQueue;
use grades::gap::Gap;
use grades::key::Key;
use grades::price::Price;
use grades::{Grade, LinkCost};
use queues::alike::{clear_both, offer_both, take_both};
use queues::queue::Queue;
use queues::scan::ScanQueue;
use queues::slot::Offer;
use std::process::Abort;

#[test]
fn first_key_first(rt: HostRuntime) {
    let mut slots = [None; 6];
    let mut order = [0; 7];
    let mut place = [0; 8];
    let mut queue = HeapQueue::new(&mut slots, &mut order, &mut place);
    // a slot, the price, the delay and the count of the key offered, and the answer
    let offers = [
        (4, 7, 5, 2, Offer::Changed),
        (4, 7, 5, 2, Offer::Kept),
        (4, 7, 6, 1, Offer::Kept),
        (4, 7, 5, 1, Offer::Changed),
        (1, 7, 5, 1, Offer::Changed),
        (0, 8, 0, 0, Offer::Changed),
        (3, 7, 4, 9, Offer::Changed),
        (5, 6, 9, 9, Offer::Changed),
        (6, 0, 0, 0, Offer::NoSlot),
    ];
    for (slot, price, delay, count, wanted) in offers {
        let grade = Price { value: price };
        let key = Key {
            grade,
            delay,
            count,
        };
        assert_eq!(rt; queue.offer(slot, &key), wanted);
    }
    for wanted in [Some(5), Some(3), Some(1), Some(4), Some(0), None] {
        assert_eq!(rt; queue.take(), wanted);
    }
    assert_eq!(rt; queue.taken(), 5);
    queue.clear();
    assert_eq!(rt; queue.taken(), 0);
    assert_eq!(rt; queue.slots(), 6);
}

// Makes the same calls to two queues of 20 slots; every figure of a key has few values, so that many keys are equal.
fn same_answers<G: Grade, Q: Queue<G>, R: Queue<G>>(rt: &impl Abort, one: &mut Q, other: &mut R) {
    let mut seed: u32 = 7;
    for round in 0..300 {
        seed = seed.wrapping_mul(1_664_525).wrapping_add(1_013_904_223);
        let price = seed >> 30;
        let gap = 9 - (seed >> 30) as u16;
        let key = Key {
            grade: G::start().step(LinkCost { price, gap }),
            delay: (seed >> 28) % 4,
            count: (seed >> 26) % 4,
        };
        let slot = (seed >> 8) as usize % 21;
        let answers = offer_both(one, other, slot, &key);
        assert_eq!(rt; answers.0, answers.1, "offer {round}");
        if round % 100 >= 50 {
            let answers = take_both(one, other);
            assert_eq!(rt; answers.0, answers.1, "take {round}");
        }
    }
    assert_eq!(rt; one.taken(), other.taken());
    clear_both(one, other);
    assert_eq!(rt; take_both(one, other), (None, None));
}

#[test]
fn alike_by_price(rt: HostRuntime) {
    let mut scanned = [None; 20];
    let mut slots = [None; 20];
    let mut order = [0; 20];
    let mut place = [0; 20];
    let mut scan = ScanQueue::<Price>::new(&mut scanned);
    let mut heap = HeapQueue::<Price>::new(&mut slots, &mut order, &mut place);
    same_answers(&rt, &mut scan, &mut heap);
}

#[test]
fn alike_by_gap(rt: HostRuntime) {
    let mut scanned = [None; 20];
    let mut slots = [None; 20];
    let mut order = [0; 20];
    let mut place = [0; 20];
    let mut scan = ScanQueue::<Gap>::new(&mut scanned);
    let mut heap = HeapQueue::<Gap>::new(&mut slots, &mut order, &mut place);
    same_answers(&rt, &mut scan, &mut heap);
}
