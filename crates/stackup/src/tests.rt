use crate::stackup::Stackup;
use faults::Fault;
use std::test::Fail;

fn told(fault: Fault) -> (u8, u64) {
    (fault.number(), fault.figure())
}

#[test]
fn builds_and_refuses(rt: HostRuntime) -> Result<(), Fail> {
    let mut stack = Stackup::new(rt.alloc())?;
    let layers = [
        (1, 1000, 1000, Ok(0)),
        (2, 1, 0, Ok(1)),
        (3, 1, 0, Err((2, 3))),
        (1, 0, 0, Err((2, 0))),
        (1, 1001, 0, Err((2, 1001))),
        (1, 1, 1001, Err((2, 1001))),
        (1, 1, 0, Ok(2)),
    ];
    for (kind, delay_rate, price_rate, wanted) in layers {
        assert_eq!(rt;
            stack.add_layer(kind, delay_rate, price_rate).map_err(told),
            wanted
        );
    }
    for n in 3..32 {
        assert_eq!(rt; stack.add_layer(1, 1, 0).map_err(told), Ok(n));
    }
    // full, whatever the numbers are
    assert_eq!(rt; stack.add_layer(3, 0, 0).map_err(told), Err((1, 32)));

    let spans = [
        (0, 3, 20_000_000, 7, Ok(0)),
        (0, 2, 5, 6, Ok(1)),
        // of several faults the first in order is told
        (32, 1, 20_000_001, 0, Err((2, 20_000_001))),
        (1, 32, 0, 0, Err((3, 32))),
        (33, 32, 0, 0, Err((3, 33))),
        (1, 1, 0, 0, Err((4, 1))),
        (2, 1, 0, 0, Err((4, 1))),
        (0, 2, 5, 6, Err((5, 1))),
        (3, 0, 0, 0, Err((8, 0))),
        (2, 2, 0, 0, Err((8, 2))),
    ];
    for (low, high, delay, price, wanted) in spans {
        assert_eq!(rt;
            stack.add_span(low, high, delay, price).map_err(told),
            wanted
        );
    }

    let closed = stack.close();
    let span = closed.span(0, 2).map(|span| (span.delay, span.price));
    assert_eq!(rt; span, Some((5, 6)));
    assert_eq!(rt; closed.span(2, 0), None);
    // a plane is no signal layer
    assert_eq!(rt; closed.signal_layer(1).map_err(told), Err((4, 1)));
    Ok(())
}
