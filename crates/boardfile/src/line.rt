// The lines that are printed.
ghost use Rattle.std.specs.Prelude.{◌≡◌, ◌++◌, IfOk, Some, string_bytes, OnOk};
ghost use Rattle.boardfile.specs.Text.{line_text};

use std::alloc::{AllocError, Global};
use std::fmt;

#[derive(Clone, Copy, PartialEq, Eq, Debug)]
pub enum Line {
    // the number and figure of a refusal, and the byte place of the record
    Refused {
        number: u8,
        figure: u64,
        place: usize,
    },
    // of an accepted search: bucket width, points reached, slots taken
    Summary {
        width: u32,
        reached: usize,
        taken: u64,
    },
    // the route given to a point: delay, price and count of links
    Route {
        point: usize,
        delay: u32,
        price: u64,
        count: u32,
    },
    Unreached {
        point: usize,
    },
}

impl fmt::Display for Line {
    ghost output = { λ l. Some (line_text l) };

    fn fmt<W: fmt::Write>(&self, f: &mut fmt::Formatter<W>) -> fmt::Result {
        match *self {
            Line::Refused {
                number,
                figure,
                place,
            } => writeln!(f, "refused {number} {figure} at {place}"),
            Line::Summary {
                width,
                reached,
                taken,
            } => writeln!(f, "width {width} reached {reached} taken {taken}"),
            Line::Route {
                point,
                delay,
                price,
                count,
            } => writeln!(f, "{point} {delay} {price} {count}"),
            Line::Unreached { point } => writeln!(f, "{point} none"),
        }
    }
}

pub fn text(heap: Global, line: Line) -> Result<String, AllocError>
    ensures { IfOk result (λ s. string_bytes s ≡ line_text line) }
{
    line.to_string(heap)
}

// Adds a line at the end of a text; where memory fails, a part of it may be there.
pub fn append(out: &mut String, line: Line) -> fmt::Result
    ensures { OnOk result (string_bytes out.new ≡ string_bytes out.old ++ line_text line) }
{
    write!(out, "{line}").map_err(fmt::Error::from)
}
