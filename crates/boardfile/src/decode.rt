// Reading one record: a body length and a kind of two bytes each, then the body, all with the lowest byte first.
ghost use Rattle.std.specs.Prelude.{◌≡◌, ◌+◌, ◌≤◌, length, take, drop};
ghost use Rattle.boardfile.specs.Little.{number_at};
ghost use Rattle.boardfile.specs.Format.{body_of, entry_at, Reads};

use crate::records::{Record, Stage};
use faults::Fault;

// The bytes of a record's body length and kind.
const HEADER: usize = 4;

fn bytes_at<const N: usize>(bytes: &[u8], at: usize) -> [u8; N]
    requires { at + N ≤ length bytes.now }
    ensures { result ≡ take N (drop at bytes.now) }
{
    *bytes[at..].first_chunk().unwrap()
}

fn u16_at(bytes: &[u8], at: usize) -> u16
    requires { at + 2 ≤ length bytes.now }
    ensures { result ≡ number_at 2 bytes.now at }
{
    u16::from_le_bytes(bytes_at(bytes, at))
}

fn u32_at(bytes: &[u8], at: usize) -> u32
    requires { at + 4 ≤ length bytes.now }
    ensures { result ≡ number_at 4 bytes.now at }
{
    u32::from_le_bytes(bytes_at(bytes, at))
}

// The record that a kind and a body stand for: none where the kind is not of this stage or the body not of its length.
// Kept out of line: so `decode`, called over and over, was measured faster than with this inlined.
#[inline(never)]
fn record_of(stage: Stage, kind: u16, body: &[u8]) -> Option<Record>
    ensures { result ≡ body_of stage kind body.now }
{
    match (stage, kind, body.len()) {
        (Stage::Stackup, 1, 5) => Some(Record::Layer {
            kind: body[0],
            delay_rate: u16_at(body, 1),
            price_rate: u16_at(body, 3),
        }),
        (Stage::Stackup, 2, 10) => Some(Record::Span {
            low: body[0],
            high: body[1],
            delay: u32_at(body, 2),
            price: u32_at(body, 6),
        }),
        (Stage::Stackup, 3, 0) => Some(Record::Close),
        (Stage::Routing, 4, 5) => Some(Record::Point {
            x: u16_at(body, 0),
            y: u16_at(body, 2),
            layer: body[4],
        }),
        (Stage::Routing, 5, 6) => Some(Record::Track {
            from: u16_at(body, 0),
            to: u16_at(body, 2),
            gap: u16_at(body, 4),
        }),
        (Stage::Routing, 6, 6) => Some(Record::Via {
            from: u16_at(body, 0),
            to: u16_at(body, 2),
            gap: u16_at(body, 4),
        }),
        (Stage::Routing, 7, 2) => Some(Record::Block {
            link: u16_at(body, 0),
        }),
        (Stage::Routing, 8, 2) => Some(Record::Free {
            link: u16_at(body, 0),
        }),
        (Stage::Routing, 9, 8) => Some(Record::Search {
            source: u16_at(body, 0),
            bound: u32_at(body, 2),
            tolerance: u16_at(body, 6),
        }),
        _ => None,
    }
}

// What `decode` reads, or none where the record is bad.
fn read(stage: Stage, file: &[u8], at: usize) -> Option<(Record, usize)>
    ensures { result ≡ entry_at stage file.now at }
{
    let (header, rest) = file.get(at..)?.split_first_chunk::<HEADER>()?;
    let len = usize::from(u16_at(header, 0));
    let kind = u16_at(header, 2);
    let body = rest.get(..len)?;
    let record = record_of(stage, kind, body)?;
    Some((record, at + HEADER + len))
}

// The record that begins at a byte place, with the place where the next one begins.
pub fn decode(stage: Stage, file: &[u8], at: usize) -> Result<(Record, usize), Fault>
    ensures { Reads stage file.now at result }
{
    read(stage, file, at).ok_or(Fault::BadRecord(at as u64))
}
