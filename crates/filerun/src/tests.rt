// Whole board files and their texts.
use crate::run::{LIMIT, run};
use std::alloc::{AllocError, Global};
use std::process::Abort;
use std::test::Fail;

// three layers (signal 60/1, plane 1/0, signal 40/2), a span 0-2 (delay 5, price 3) and the close: 45 bytes
const STACK: &[u8] =
    b"\x05\x00\x01\x00\x01\x3c\x00\x01\x00\x05\x00\x01\x00\x02\x01\x00\x00\x00\x05\x00\x01\x00\x01\x28\x00\x02\x00\x0a\x00\x02\x00\x00\x02\x05\x00\x00\x00\x03\x00\x00\x00\x00\x00\x03\x00";

// points (0,0) and (10,0) on layers 0 and 2; track 0-1, via 0-2, track 2-3, via 3-1: up to byte 121
const BOARD: &[u8] =
    b"\x05\x00\x04\x00\x00\x00\x00\x00\x00\x05\x00\x04\x00\x0a\x00\x00\x00\x00\x05\x00\x04\x00\x00\x00\x00\x00\x02\x05\x00\x04\x00\x0a\x00\x00\x00\x02\x06\x00\x05\x00\x00\x00\x01\x00\x04\x00\x06\x00\x06\x00\x00\x00\x02\x00\x06\x00\x06\x00\x05\x00\x02\x00\x03\x00\x09\x00\x06\x00\x06\x00\x03\x00\x01\x00\x06\x00";

// a signal layer, rates 60 and 1: 9 bytes
const LAYER: &[u8] = b"\x05\x00\x01\x00\x01\x3c\x00\x01\x00";

// a track 0-1, gap 4: 10 bytes
const TRACK: &[u8] = b"\x06\x00\x05\x00\x00\x00\x01\x00\x04\x00";

fn joined(heap: Global, parts: &[&[u8]]) -> Result<Vec<u8>, AllocError> {
    let mut file = Vec::new(heap);
    for part in parts {
        file.extend_from_slice(part)?;
    }
    Ok(file)
}

fn prints(rt: &impl Abort, heap: Global, parts: &[&[u8]], text: &str) -> Result<(), Fail> {
    let file = joined(heap, parts)?;
    let said = run(heap, file.as_slice())?;
    assert!(rt; said.as_str() == text);
    Ok(())
}

#[test]
fn searches(rt: HostRuntime) -> Result<(), Fail> {
    let heap = rt.alloc();
    // an empty file
    prints(&rt, heap, &[], "")?;
    // a close alone
    prints(&rt, heap, &[b"\x00\x00\x03\x00"], "")?;
    // the sample board
    prints(
        &rt,
        heap,
        &[
            STACK,
            BOARD,
            b"\x08\x00\x09\x00\x00\x00\x57\x02\x00\x00\x0a\x00",
        ],
        "width 2 reached 4 taken 11\n0 0 0 0\n1 600 10 1\n2 5 3 1\n3 405 23 2\n",
    )?;
    // block twice, free twice, two searches
    prints(
        &rt,
        heap,
        &[
            STACK,
            BOARD,
            b"\x02\x00\x07\x00\x00\x00\x02\x00\x07\x00\x00\x00\x08\x00\x09\x00\x00\x00\x9a\x01\x00\x00\x00\x00\x02\x00\x08\x00\x00\x00\x02\x00\x08\x00\x00\x00\x08\x00\x09\x00\x00\x00\x57\x02\x00\x00\x0a\x00",
        ],
        "width 1 reached 4 taken 9\n0 0 0 0\n1 410 26 3\n2 5 3 1\n3 405 23 2\nwidth 2 reached 4 taken 11\n0 0 0 0\n1 600 10 1\n2 5 3 1\n3 405 23 2\n",
    )?;
    // one point, bound 0
    prints(
        &rt,
        heap,
        &[
            STACK,
            b"\x05\x00\x04\x00\x03\x00\x04\x00\x00\x08\x00\x09\x00\x00\x00\x00\x00\x00\x00\x00\x00",
        ],
        "width 1 reached 1 taken 2\n0 0 0 0\n",
    )?;
    // bound 0 on the sample board
    prints(
        &rt,
        heap,
        &[
            STACK,
            BOARD,
            b"\x08\x00\x09\x00\x00\x00\x00\x00\x00\x00\xe8\x03",
        ],
        "width 1 reached 1 taken 2\n0 0 0 0\n1 none\n2 none\n3 none\n",
    )?;
    Ok(())
}

#[test]
fn refusals(rt: HostRuntime) -> Result<(), Fail> {
    let heap = rt.alloc();
    // 2: a layer kind, a delay rate, a price rate
    prints(
        &rt,
        heap,
        &[
            b"\x05\x00\x01\x00\x03\x01\x00\x01\x00\x05\x00\x01\x00\x01\x00\x00\x01\x00\x05\x00\x01\x00\x01\x01\x00\xe9\x03",
        ],
        "refused 2 3 at 0\nrefused 2 0 at 9\nrefused 2 1001 at 18\n",
    )?;
    // 3, 4, 5, 8: spans
    prints(
        &rt,
        heap,
        &[
            b"\x05\x00\x01\x00\x01\x01\x00\x01\x00\x05\x00\x01\x00\x02\x01\x00\x01\x00\x05\x00\x01\x00\x01\x01\x00\x01\x00\x0a\x00\x02\x00\x00\x03\x00\x00\x00\x00\x00\x00\x00\x00\x0a\x00\x02\x00\x01\x02\x00\x00\x00\x00\x00\x00\x00\x00\x0a\x00\x02\x00\x00\x02\x00\x00\x00\x00\x00\x00\x00\x00\x0a\x00\x02\x00\x00\x02\x00\x00\x00\x00\x00\x00\x00\x00\x0a\x00\x02\x00\x02\x00\x00\x00\x00\x00\x00\x00\x00\x00\x0a\x00\x02\x00\x00\x02\x01\x2d\x31\x01\x00\x00\x00\x00",
        ],
        "refused 3 3 at 27\nrefused 4 1 at 41\nrefused 5 0 at 69\nrefused 8 0 at 83\nrefused 2 20000001 at 97\n",
    )?;
    // 2, 3, 4, 5: points
    prints(
        &rt,
        heap,
        &[
            STACK,
            b"\x05\x00\x04\x00\x21\x4e\x00\x00\x00\x05\x00\x04\x00\x00\x00\x00\x00\x09\x05\x00\x04\x00\x00\x00\x00\x00\x01\x05\x00\x04\x00\x01\x00\x02\x00\x00\x05\x00\x04\x00\x01\x00\x02\x00\x00",
        ],
        "refused 2 20001 at 45\nrefused 3 9 at 54\nrefused 4 1 at 63\nrefused 5 0 at 81\n",
    )?;
    // 2, 6, 8: tracks and vias
    prints(
        &rt,
        heap,
        &[
            STACK,
            BOARD,
            b"\x06\x00\x05\x00\x00\x00\x01\x00\x00\x00\x06\x00\x05\x00\x00\x00\x09\x00\x01\x00\x06\x00\x05\x00\x09\x00\x08\x00\x01\x00\x06\x00\x05\x00\x00\x00\x00\x00\x01\x00\x06\x00\x05\x00\x00\x00\x03\x00\x01\x00\x06\x00\x06\x00\x00\x00\x01\x00\x01\x00\x06\x00\x06\x00\x01\x00\x03\x00\x21\x4e",
        ],
        "refused 2 0 at 121\nrefused 6 9 at 131\nrefused 6 9 at 141\nrefused 8 0 at 151\nrefused 8 3 at 161\nrefused 8 1 at 171\nrefused 2 20001 at 181\n",
    )?;
    // 7: a link that is not there
    prints(
        &rt,
        heap,
        &[
            STACK,
            BOARD,
            b"\x02\x00\x07\x00\x04\x00\x02\x00\x08\x00\x09\x00",
        ],
        "refused 7 4 at 121\nrefused 7 9 at 127\n",
    )?;
    // 2, 6, 9: searches
    prints(
        &rt,
        heap,
        &[
            STACK,
            BOARD,
            b"\x08\x00\x09\x00\x00\x00\x81\xf0\xfa\x02\x00\x00\x08\x00\x09\x00\x00\x00\x00\x00\x00\x00\xe9\x03\x08\x00\x09\x00\x04\x00\x01\x00\x00\x00\x00\x00\x08\x00\x09\x00\x00\x00\x58\x02\x00\x00\x00\x00",
        ],
        "refused 2 50000001 at 121\nrefused 2 1001 at 133\nrefused 6 4 at 145\nrefused 9 2404 at 157\n",
    )?;
    // no point: every search is refused
    prints(
        &rt,
        heap,
        &[STACK, b"\x08\x00\x09\x00\x00\x00\x01\x00\x00\x00\x00\x00"],
        "refused 6 0 at 45\n",
    )?;
    Ok(())
}

// Refusal 1: the 33rd layer, and the 257th link.
#[test]
fn full_tables(rt: HostRuntime) -> Result<(), Fail> {
    let heap = rt.alloc();
    prints(&rt, heap, &[LAYER; 33], "refused 1 32 at 288\n")?;
    let tracks = joined(heap, &[TRACK; 253])?;
    prints(
        &rt,
        heap,
        &[STACK, BOARD, tracks.as_slice()],
        "refused 1 256 at 2641\n",
    )
}

#[test]
fn bad_records(rt: HostRuntime) -> Result<(), Fail> {
    let heap = rt.alloc();
    // a kind out of stage, after the close
    prints(
        &rt,
        heap,
        &[
            STACK,
            b"\x05\x00\x04\x00\x00\x00\x00\x00\x00\x05\x00\x01\x00\x01\x01\x00\x01\x00\x05\x00\x04\x00\x01\x00\x01\x00\x00",
        ],
        "refused 13 54 at 54\n",
    )?;
    // a kind out of stage, before the close
    prints(
        &rt,
        heap,
        &[b"\x05\x00\x01\x00\x01\x01\x00\x01\x00\x05\x00\x04\x00\x00\x00\x00\x00\x00"],
        "refused 13 9 at 9\n",
    )?;
    // a second close
    prints(
        &rt,
        heap,
        &[b"\x00\x00\x03\x00\x00\x00\x03\x00"],
        "refused 13 4 at 4\n",
    )?;
    // kinds 0 and 10
    prints(&rt, heap, &[b"\x00\x00\x00\x00"], "refused 13 0 at 0\n")?;
    // kind 10
    prints(
        &rt,
        heap,
        &[b"\x00\x00\x03\x00\x00\x00\x0a\x00"],
        "refused 13 4 at 4\n",
    )?;
    // a wrong length
    prints(
        &rt,
        heap,
        &[b"\x04\x00\x01\x00\x01\x01\x00\x01"],
        "refused 13 0 at 0\n",
    )?;
    // a cut body
    prints(
        &rt,
        heap,
        &[b"\x05\x00\x01\x00\x01\x01\x00\x01"],
        "refused 13 0 at 0\n",
    )?;
    // a cut head
    prints(
        &rt,
        heap,
        &[b"\x05\x00\x01\x00\x01\x01\x00\x01\x00\x05\x00\x01"],
        "refused 13 9 at 9\n",
    )?;
    // a refused call, then a bad record
    prints(
        &rt,
        heap,
        &[STACK, b"\x05\x00\x04\x00\x00\x00\x00\x00\x01\x01"],
        "refused 4 1 at 45\nrefused 13 54 at 54\n",
    )?;
    Ok(())
}

// A file of the longest length is read, and one byte more is too long whatever it begins with.
#[test]
fn lengths(rt: HostRuntime) -> Result<(), Fail> {
    let heap = rt.alloc();
    let longest = vec![in heap; 0u8; LIMIT]?;
    prints(&rt, heap, &[longest.as_slice()], "refused 13 0 at 0\n")?;
    prints(
        &rt,
        heap,
        &[STACK, longest.as_slice()],
        "refused 13 32768 at 32768\n",
    )?;
    prints(
        &rt,
        heap,
        &[b"\x00", longest.as_slice()],
        "refused 13 32768 at 32768\n",
    )
}
