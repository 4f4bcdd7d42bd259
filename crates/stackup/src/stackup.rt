// A stackup while it is built, and one that is fixed.
ghost use Rattle.std.specs.Prelude.{◌≤◌, vec_len, vec_capacity};
ghost use Rattle.stackup.specs.Stacks.{OwnSpans, OneEach};

use crate::layer::{Layer, Span};

pub mod build;
pub mod look;

// A stackup that is being built. Every span joins two of its own signal layers, and no pair has two.
#[derive(Drop)]
pub struct Stackup {
    layers: Vec<Layer>,
    spans: Vec<Span>,
    ghost few: { vec_len layers ≤ 32 },
    ghost room: { 32 ≤ vec_capacity layers },
    ghost fewer: { vec_len spans ≤ 64 },
    ghost space: { 64 ≤ vec_capacity spans },
    ghost own: { OwnSpans layers.items spans.items },
    ghost single: { OneEach spans.items },
}

// A stackup that is fixed.
#[derive(Drop)]
pub struct ClosedStackup {
    stack: Stackup,
}
