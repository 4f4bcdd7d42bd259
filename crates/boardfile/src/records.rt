// What a board file is made of.

// Before or after the record that closes the stackup.
#[derive(Clone, Copy, PartialEq, Eq, Debug)]
pub enum Stage {
    Stackup,
    Routing,
}

// One record with the numbers of its body, whose ranges are for the call that it stands for to check.
#[derive(Clone, Copy, PartialEq, Eq, Debug)]
pub enum Record {
    Layer {
        kind: u8,
        delay_rate: u16,
        price_rate: u16,
    },
    // the two layers in the order they are named in
    Span {
        low: u8,
        high: u8,
        delay: u32,
        price: u32,
    },
    Close,
    Point {
        x: u16,
        y: u16,
        layer: u8,
    },
    Track {
        from: u16,
        to: u16,
        gap: u16,
    },
    Via {
        from: u16,
        to: u16,
        gap: u16,
    },
    Block {
        link: u16,
    },
    Free {
        link: u16,
    },
    Search {
        source: u16,
        bound: u32,
        tolerance: u16,
    },
}
