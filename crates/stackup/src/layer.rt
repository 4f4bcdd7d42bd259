// The records of a stackup.
ghost use Rattle.std.specs.Prelude.{[], ◌∷◌};
ghost use Rattle.faults.specs.Checks.{Gives};
ghost use Rattle.stackup.specs.Stacks.{layer_numbers_check, layer_of, ReadsKind};

use faults::{Fault, check_range};

const MAX_RATE: u64 = 1000;

#[derive(Clone, Copy, PartialEq, Eq, Debug)]
pub enum LayerKind {
    Signal,
    Plane,
}

impl TryFrom<u8> for LayerKind {
    type Error = Fault;

    ghost try_from_gives = { ReadsKind };

    fn try_from(number: u8) -> Result<LayerKind, Fault> {
        match number {
            1 => Ok(LayerKind::Signal),
            2 => Ok(LayerKind::Plane),
            _ => Err(Fault::OutOfRange(number.into())),
        }
    }
}

// A layer, with its delay and its price for each step of a track.
#[derive(Clone, Copy, PartialEq, Eq, Debug)]
pub struct Layer {
    pub kind: LayerKind,
    pub delay_rate: u16,
    pub price_rate: u16,
}

impl Layer {
    // A layer of kind 1 (signal) or 2 (plane), whose numbers have to be in range.
    pub(crate) fn new(kind: u8, delay_rate: u16, price_rate: u16) -> Result<Layer, Fault>
        ensures { Gives
            (layer_numbers_check kind delay_rate price_rate ∷ [])
            (layer_of kind delay_rate price_rate)
            result }
    {
        let kind = LayerKind::try_from(kind)?;
        check_range(delay_rate.into(), 1..=MAX_RATE)?;
        check_range(price_rate.into(), 0..=MAX_RATE)?;
        Ok(Layer {
            kind,
            delay_rate,
            price_rate,
        })
    }
}

// Allows vias between two signal layers, at a delay and a price.
#[derive(Clone, Copy, PartialEq, Eq, Debug)]
pub struct Span {
    pub delay: u32,
    pub price: u32,
    pub low: u8,
    pub high: u8,
}
