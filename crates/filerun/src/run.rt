// All that a board file prints.
ghost use Rattle.std.specs.Prelude.{◌≡◌, ◌<◌, ◌++◌, length, IfOk, string_bytes, OnOk};
ghost use Rattle.faults.specs.Faults.{number_of, figure_of};
ghost use Rattle.boardfile.specs.Text.{line_text};
ghost use Rattle.boardfile.specs.declared.line.Line.TheVariants.{Refused};

use crate::calls::{build, route};
use crate::records::Records;
use board::board::Board;
use board::point::Point;
use boardfile::line::Line;
use boardfile::records::Record;
use faults::Fault;
use grades::LinkCost;
use grades::price::Price;
use heap_queue::heap::HeapQueue;
use queues::queue::Queue;
use stackup::stackup::{ClosedStackup, Stackup};
use std::alloc::{AllocError, Global};
use tables::table::{Found, Link};
use tables::wipe::{empty_label, unreached};

// The longest file that is read, in bytes.
pub const LIMIT: usize = 32_768;

const POINTS: usize = 64;

const LINKS: usize = 256;

const LABELS: usize = 2_000;

fn say(out: &mut String, line: Line) -> Result<(), AllocError>
    ensures { OnOk result (string_bytes out.new ≡ string_bytes out.old ++ line_text line) }
{
    write!(out, "{line}")
}

// The line of a refusal, with the byte place of the record.
fn refusal(fault: Fault, place: usize) -> Line
    ensures { result ≡ Refused (number_of fault) (figure_of fault) place }
{
    Line::Refused {
        number: fault.number(),
        figure: fault.figure(),
        place,
    }
}

// The line of a point after a search; none if the board has no such point.
fn point_line(board: &Board<Price>, point: u16) -> Option<Line> {
    // a route visits no point twice, so it has fewer links than the board has places for points
    let mut list = [0; POINTS];
    let at = point as usize;
    match board.read(point, &mut list) {
        Ok(route) => Some(Line::Route {
            point: at,
            delay: route.delay,
            price: route.grade.value,
            count: route.count,
        }),
        Err(Fault::NoPoint(_)) => None,
        Err(_) => Some(Line::Unreached { point: at }),
    }
}

// A line for the search, and one for each point of the board.
fn say_routes(out: &mut String, board: &Board<Price>, found: Found) -> Result<(), AllocError> {
    let summary = Line::Summary {
        width: found.width,
        reached: found.reached,
        taken: found.taken,
    };
    say(out, summary)?;
    for line in (0..POINTS as u16).map_while(|point| point_line(board, point)) {
        say(out, line)?;
    }
    Ok(())
}

// The stackup of a file, by the records up to the one that closes it; none if reading ends before.
fn run_stackup(
    heap: Global,
    out: &mut String,
    records: &mut Records,
) -> Result<Option<ClosedStackup>, AllocError> {
    let mut stackup = Stackup::new(heap)?;
    for (place, read) in records.by_ref() {
        if let Ok(Record::Close) = read {
            return Ok(Some(stackup.close()));
        }
        if let Err(fault) = read.and_then(|record| build(&mut stackup, record)) {
            say(out, refusal(fault, place))?;
        }
    }
    Ok(None)
}

// Makes the calls of the records after the close.
fn run_board<Q: Queue<Price>>(
    out: &mut String,
    records: Records,
    board: &mut Board<Price>,
    queue: &mut Q,
) -> Result<(), AllocError> {
    for (place, read) in records {
        match read.and_then(|record| route(board, queue, record)) {
            Ok(Some(found)) => say_routes(out, board, found)?,
            Ok(None) => {}
            Err(fault) => say(out, refusal(fault, place))?,
        }
    }
    Ok(())
}

// Opens a board on the stackup over tables of its own, and reads on.
fn run_closed(
    out: &mut String,
    records: Records,
    stackup: ClosedStackup,
) -> Result<(), AllocError> {
    let mut points = [Point {
        x: 0,
        y: 0,
        layer: 0,
    }; POINTS];
    let blank = Link {
        delay: 0,
        cost: LinkCost { price: 0, gap: 0 },
        from: 0,
        to: 0,
        open: false,
    };
    let mut links = [blank; LINKS];
    let mut labels = [empty_label(); LABELS];
    let mut outcomes = [unreached(); POINTS];
    let mut slots = [None; POINTS];
    let mut heap_order = [0; POINTS];
    let mut heap_places = [0; POINTS];
    let mut queue = HeapQueue::new(&mut slots, &mut heap_order, &mut heap_places);
    let mut board = Board::open(stackup, &mut points, &mut links, &mut labels, &mut outcomes);
    run_board(out, records, &mut board, &mut queue)
}

// The text of a whole board file.
pub fn run(heap: Global, file: &[u8]) -> Result<String, AllocError>
    ensures { IfOk result (λ s. (32768 < length file.now → string_bytes s ≡ line_text (Refused 13 32768 32768))) }
{
    let mut out = String::new(heap);
    if file.len() > LIMIT {
        say(&mut out, refusal(Fault::BadRecord(LIMIT as u64), LIMIT))?;
        return Ok(out);
    }
    let mut records = Records::new(file);
    if let Some(stackup) = run_stackup(heap, &mut out, &mut records)? {
        run_closed(&mut out, records, stackup)?;
    }
    Ok(out)
}
