use crate::queue::Queue;
use crate::scan::ScanQueue;
use crate::slot::Offer;
use grades::key::Key;
use grades::price::Price;

#[test]
fn first_key_first(rt: HostRuntime) {
    let mut slots = [None; 6];
    let mut queue = ScanQueue::new(&mut slots);
    // a slot, the price, the delay and the count of the key offered, and the answer
    let offers = [
        (4, 7, 5, 2, Offer::Changed),
        (4, 7, 5, 2, Offer::Kept),
        (4, 7, 6, 1, Offer::Kept),
        (4, 7, 5, 1, Offer::Changed),
        (1, 7, 5, 1, Offer::Changed),
        (0, 8, 0, 0, Offer::Changed),
        (3, 7, 4, 9, Offer::Changed),
        (5, 6, 9, 9, Offer::Changed),
        (6, 0, 0, 0, Offer::NoSlot),
    ];
    for (slot, price, delay, count, wanted) in offers {
        let grade = Price { value: price };
        let key = Key {
            grade,
            delay,
            count,
        };
        assert_eq!(rt; queue.offer(slot, &key), wanted);
    }
    for wanted in [Some(5), Some(3), Some(1), Some(4), Some(0), None] {
        assert_eq!(rt; queue.take(), wanted);
    }
    assert_eq!(rt; queue.taken(), 5);
    queue.clear();
    assert_eq!(rt; queue.taken(), 0);
    assert_eq!(rt; queue.slots(), 6);
}
