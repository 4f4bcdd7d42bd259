// The calls on an open stackup.
ghost use Rattle.std.specs.Prelude.{◌≡◌, [], ◌∷◌, IfOk};
ghost use Rattle.faults.specs.Checks.{Checked, Gives};
ghost use Rattle.stackup.specs.Stacks.{AddsLayer, AddsSpan, layer_checks, layer_of, order_check, pair_check, span_checks};
ghost use Rattle.stackup.specs.Views.{stack_of, closed_of};

use crate::layer::{Layer, Span};
use crate::stackup::{ClosedStackup, Stackup};
use faults::{Fault, check_range, check_room};
use std::alloc::{AllocError, Global};

const MAX_LAYERS: usize = 32;

const MAX_SPANS: usize = 64;

const MAX_SPAN_COST: u64 = 20_000_000;

// The lower of a span's two layers is named first.
fn check_order(low: u8, high: u8) -> Result<(), Fault>
    ensures { Checked (order_check low high ∷ []) result }
{
    if low < high {
        Ok(())
    } else {
        Err(Fault::NotJoinable(high.into()))
    }
}

impl Stackup {
    // An open stackup with no layers. It holds the memory of all that it may come to have.
    pub fn new(heap: Global) -> Result<Stackup, AllocError>
        ensures { IfOk result (λ s. stack_of s ≡ record { layers = []; spans = [] }) }
    {
        Ok(Stackup {
            layers: Vec::with_capacity(heap, MAX_LAYERS)?,
            spans: Vec::with_capacity(heap, MAX_SPANS)?,
        })
    }

    // The layer of these numbers, if there is room for one more.
    fn new_layer(&self, kind: u8, delay_rate: u16, price_rate: u16) -> Result<Layer, Fault>
        ensures { Gives
            (layer_checks (stack_of self.now) kind delay_rate price_rate)
            (layer_of kind delay_rate price_rate)
            result }
    {
        check_room(self.layers.len(), MAX_LAYERS)?;
        Layer::new(kind, delay_rate, price_rate)
    }

    // Adds a layer of kind 1 (signal) or 2 (plane), and answers with its number.
    pub fn add_layer(&mut self, kind: u8, delay_rate: u16, price_rate: u16) -> Result<u8, Fault>
        ensures { AddsLayer (stack_of self.old) kind delay_rate price_rate result (stack_of self.new) }
    {
        let layer = self.new_layer(kind, delay_rate, price_rate)?;
        let n = self.layers.len();
        self.layers.push_reserved(layer);
        Ok(n as u8)
    }

    fn check_pair(&self, low: u8, high: u8) -> Result<(), Fault>
        ensures { Checked (pair_check (stack_of self.now).spans low high ∷ []) result }
    {
        match self.find(low, high) {
            Some(k) => Err(Fault::Taken(k as u64)),
            None => Ok(()),
        }
    }

    // Every check of a new span, in order: both layers have to be there before either has to be a signal layer.
    fn check_span(&self, span: Span) -> Result<(), Fault>
        ensures { Checked (span_checks (stack_of self.now) span.low span.high span.delay span.price) result }
    {
        check_room(self.spans.len(), MAX_SPANS)?;
        check_range(span.delay.into(), 0..=MAX_SPAN_COST)?;
        check_range(span.price.into(), 0..=MAX_SPAN_COST)?;
        self.find_layer(span.low)?;
        self.find_layer(span.high)?;
        self.find_signal(span.low)?;
        self.find_signal(span.high)?;
        self.check_pair(span.low, span.high)?;
        check_order(span.low, span.high)
    }

    // Allows vias between two signal layers, the lower number first, and answers with the span's number.
    pub fn add_span(&mut self, low: u8, high: u8, delay: u32, price: u32) -> Result<u8, Fault>
        ensures { AddsSpan (stack_of self.old) low high delay price result (stack_of self.new) }
    {
        let span = Span {
            delay,
            price,
            low,
            high,
        };
        self.check_span(span)?;
        let n = self.spans.len();
        self.spans.push_reserved(span);
        Ok(n as u8)
    }

    // Fixes the stackup.
    pub fn close(self) -> ClosedStackup
        ensures { closed_of result ≡ stack_of self }
    {
        ClosedStackup { stack: self }
    }
}
