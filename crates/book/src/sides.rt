//! To which side the two SIs of a failing pair go: docs/RULES.md, 'The side of a fail'.
ghost use Rattle.std.specs.Prelude.{◌≡◌};
ghost use Rattle.book.specs.Sides.{sides_at_close, sides_when_late};
ghost use Rattle.book.specs.SidesTable.{SidesAreTheTable};

use crate::pairs::{Holds, Kind, Lack, Side};

/// The side of a fail: both SIs to securities, both to cash, or one to each.
#[derive(Clone, Copy, Debug, PartialEq, Eq)]
pub enum Sides {
    Securities,
    Cash,
    OneEach,
}

impl Sides {
    /// At the close: rules a to f, the first that applies. The customer asked for a match over kind, holds and lack.
    pub fn at_close(kind: Kind, holds: Holds, lack: Lack) -> Sides
        ensures { result ≡ sides_at_close kind holds lack }
    {
        match (kind, holds.deliverer, holds.receiver, lack) {
            (Kind::FreeOfPayment, _, _, _) => Sides::Securities,
            (Kind::PaymentOnly, _, _, _) => Sides::Cash,
            (Kind::AgainstPayment, true, true, _) => Sides::OneEach,
            (Kind::WithPayment, true, _, _) | (Kind::WithPayment, _, true, _) => Sides::OneEach,
            (Kind::AgainstPayment, true, false, _) => Sides::Securities,
            (Kind::AgainstPayment, false, true, _) => Sides::Cash,
            (_, false, false, Lack::Cash) => Sides::Cash,
            (_, false, false, Lack::Securities | Lack::Nothing) => Sides::Securities,
        }
    }

    /// On a day before the pair was matched.
    pub fn when_late(kind: Kind, side: Side) -> Sides
        ensures { result ≡ sides_when_late kind side }
    {
        match (kind, side) {
            (Kind::FreeOfPayment, _) => Sides::Securities,
            (Kind::PaymentOnly, _) => Sides::Cash,
            (_, Side::Deliverer) => Sides::Securities,
            (_, Side::Receiver) => Sides::Cash,
        }
    }
}

/// The sides of a fail, in every case, are those of the table written out by hand.
pub fn sides_as_in_the_table()
    ensures { SidesAreTheTable }
{}
