// The call that each record stands for.
use board::board::Board;
use boardfile::records::Record;
use faults::Fault;
use grades::price::Price;
use queues::queue::Queue;
use stackup::stackup::Stackup;
use tables::table::Found;

// Makes the call of a record on an open stackup.
pub(crate) fn build(stackup: &mut Stackup, record: Record) -> Result<(), Fault> {
    match record {
        Record::Layer {
            kind,
            delay_rate,
            price_rate,
        } => {
            stackup.add_layer(kind, delay_rate, price_rate)?;
        }
        Record::Span {
            low,
            high,
            delay,
            price,
        } => {
            stackup.add_span(low, high, delay, price)?;
        }
        // no other kind is read before the close
        _ => {}
    }
    Ok(())
}

// Makes the call of a record on a board, and answers with what a search found.
pub(crate) fn route<Q: Queue<Price>>(
    board: &mut Board<Price>,
    queue: &mut Q,
    record: Record,
) -> Result<Option<Found>, Fault> {
    match record {
        Record::Point { x, y, layer } => {
            board.add_point(x, y, layer)?;
        }
        Record::Track { from, to, gap } => {
            board.add_track(from, to, gap)?;
        }
        Record::Via { from, to, gap } => {
            board.add_via(from, to, gap)?;
        }
        Record::Block { link } => board.block(link)?,
        Record::Free { link } => board.free(link)?,
        Record::Search {
            source,
            bound,
            tolerance,
        } => return board.search(queue, source, bound, tolerance).map(Some),
        // no other kind is read at this stage
        _ => {}
    }
    Ok(None)
}
