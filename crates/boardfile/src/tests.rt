use crate::decode::decode;
use crate::line::{Line, append, text};
use crate::records::{Record, Stage};
use faults::Fault;
use std::test::Fail;

// each well-formed record with the stage it is read at, one after the other in one file
const FILE: &[u8] = b"\x05\x00\x01\x00\x02\x34\x12\x78\x56\
    \x0a\x00\x02\x00\x00\x02\x01\x02\x03\x04\x05\x06\x07\x08\
    \x00\x00\x03\x00\
    \x05\x00\x04\x00\x01\x02\x03\x04\x05\
    \x06\x00\x05\x00\x01\x00\x02\x00\x03\x01\
    \x06\x00\x06\x00\x02\x00\x01\x00\xff\xff\
    \x02\x00\x07\x00\x09\x01\
    \x02\x00\x08\x00\x0a\x01\
    \x08\x00\x09\x00\x01\x00\x80\xf0\xfa\x02\xe8\x03";

const RECORDS: [(Stage, Record); 9] = [
    (
        Stage::Stackup,
        Record::Layer {
            kind: 2,
            delay_rate: 0x1234,
            price_rate: 0x5678,
        },
    ),
    (
        Stage::Stackup,
        Record::Span {
            low: 0,
            high: 2,
            delay: 0x04030201,
            price: 0x08070605,
        },
    ),
    (Stage::Stackup, Record::Close),
    (
        Stage::Routing,
        Record::Point {
            x: 0x0201,
            y: 0x0403,
            layer: 5,
        },
    ),
    (
        Stage::Routing,
        Record::Track {
            from: 1,
            to: 2,
            gap: 259,
        },
    ),
    (
        Stage::Routing,
        Record::Via {
            from: 2,
            to: 1,
            gap: 65535,
        },
    ),
    (Stage::Routing, Record::Block { link: 265 }),
    (Stage::Routing, Record::Free { link: 266 }),
    (
        Stage::Routing,
        Record::Search {
            source: 1,
            bound: 50_000_000,
            tolerance: 1000,
        },
    ),
];

const BAD: [(Stage, &[u8], usize); 14] = [
    // out of stage
    (Stage::Routing, FILE, 0),
    (Stage::Routing, FILE, 23),
    (Stage::Stackup, FILE, 27),
    // no such kind
    (Stage::Stackup, b"\x00\x00\x00\x00", 0),
    (Stage::Routing, b"\x00\x00\x0a\x00", 0),
    (Stage::Stackup, b"\x00\x00\x03\x01", 0),
    // a body that is too long or too short for its kind
    (Stage::Stackup, b"\x01\x00\x03\x00\x00", 0),
    (Stage::Routing, b"\x01\x00\x07\x00\x00\x00", 0),
    // a cut body, and a cut header
    (Stage::Stackup, b"\x05\x00\x01\x00\x02\x34\x12\x78", 0),
    (Stage::Stackup, b"\x00\x00\x03", 0),
    (Stage::Stackup, b"\x00\x00\x03\x00\x00\x00", 4),
    (Stage::Stackup, b"\x00\x00\x03\x00\x00", 4),
    // at the end, and past it
    (Stage::Routing, b"\x00\x00\x03\x00", 4),
    (Stage::Routing, b"", usize::MAX),
];

#[test]
fn decodes(rt: HostRuntime) -> Result<(), Fail> {
    let mut at = 0;
    for (stage, wanted) in RECORDS {
        let (found, next) = decode(stage, FILE, at)?;
        assert_eq!(rt; found, wanted);
        at = next;
    }
    assert_eq!(rt; at, FILE.len());

    for (stage, bytes, place) in BAD {
        let bad = Fault::BadRecord(place as u64);
        assert_eq!(rt; decode(stage, bytes, place), Err(bad));
    }
    Ok(())
}

const LINES: [(Line, &str); 4] = [
    (
        Line::Refused {
            number: 13,
            figure: 32768,
            place: 0,
        },
        "refused 13 32768 at 0\n",
    ),
    (
        Line::Summary {
            width: 20,
            reached: 4,
            taken: 18446744073709551615,
        },
        "width 20 reached 4 taken 18446744073709551615\n",
    ),
    (
        Line::Route {
            point: 3,
            delay: 905,
            price: 28,
            count: 2,
        },
        "3 905 28 2\n",
    ),
    (Line::Unreached { point: 4095 }, "4095 none\n"),
];

#[test]
fn lines(rt: HostRuntime) -> Result<(), Fail> {
    let mut out = String::new(rt.alloc());
    for (line, wanted) in LINES {
        let one = text(rt.alloc(), line)?;
        assert_eq!(rt; one.as_str(), wanted);
        append(&mut out, line)?;
    }
    assert_eq!(rt;
        out.as_str(),
        "refused 13 32768 at 0\nwidth 20 reached 4 taken 18446744073709551615\n3 905 28 2\n4095 none\n"
    );
    Ok(())
}
