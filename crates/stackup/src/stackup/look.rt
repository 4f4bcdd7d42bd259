// Looking into a stackup.
ghost use Rattle.std.specs.Prelude.{◌≡◌, [], ◌∷◌};
ghost use Rattle.faults.specs.Checks.{Gives};
ghost use Rattle.stackup.specs.Stacks.{FindsSignal, FindsSpan, FindsSpanNo, layer_at, layer_check};
ghost use Rattle.stackup.specs.Views.{stack_of, closed_of};

use crate::layer::{Layer, LayerKind, Span};
use crate::stackup::{ClosedStackup, Stackup};
use faults::Fault;

impl Stackup {
    // A layer that has to be there.
    pub(crate) fn find_layer(&self, layer: u8) -> Result<Layer, Fault>
        ensures { Gives
            (layer_check (stack_of self.now).layers layer ∷ [])
            (layer_at (stack_of self.now).layers layer)
            result }
    {
        self.layers
            .get(usize::from(layer))
            .copied()
            .ok_or(Fault::NoLayer(layer))
    }

    // A layer that has to be a signal layer.
    pub(crate) fn find_signal(&self, layer: u8) -> Result<Layer, Fault>
        ensures { FindsSignal (stack_of self.now) layer result }
    {
        let found = self.find_layer(layer)?;
        match found.kind {
            LayerKind::Signal => Ok(found),
            LayerKind::Plane => Err(Fault::PlaneLayer(layer)),
        }
    }

    // The number of the span between two layers, in the order named.
    pub(crate) fn find(&self, low: u8, high: u8) -> Option<usize>
        ensures { FindsSpanNo (stack_of self.now).spans low high result }
    {
        self.spans
            .iter()
            .position(|span| span.low == low && span.high == high)
    }
}

impl ClosedStackup {
    // A signal layer, by its number.
    pub fn signal_layer(&self, layer: u8) -> Result<Layer, Fault>
        ensures { FindsSignal (closed_of self.now) layer result }
    {
        self.stack.find_signal(layer)
    }

    // A layer by its number. One that is not there is a plane with no rates.
    pub fn layer(&self, layer: u8) -> Layer
        ensures { result ≡ layer_at (closed_of self.now).layers layer }
    {
        self.stack.find_layer(layer).unwrap_or(Layer {
            kind: LayerKind::Plane,
            delay_rate: 0,
            price_rate: 0,
        })
    }

    // The span between two layers, the lower number first.
    pub fn span(&self, low: u8, high: u8) -> Option<Span>
        ensures { FindsSpan (closed_of self.now).spans low high result }
    {
        let k = self.stack.find(low, high)?;
        Some(self.stack.spans[k])
    }
}
