//! A matched pair of settlement instructions: docs/RULES.md, 'The pair'.
ghost use Rattle.std.specs.Prelude.{◌≡◌, ◌<◌, ◌≤◌};
ghost use Rattle.book.specs.Limits.{day_limit};
ghost use Rattle.book.specs.Pairs.{NumbersMatch, in_range, if_in_range, switch_of, entered, with_hold, with_lack, with_part};
ghost use Rattle.book.specs.Answers.{settle_answer};
ghost use Rattle.book.specs.Postings.{posting, is_failing, fail_today, part_posting, late_fail};

use crate::calls::{Answer, Refusal};
use crate::figures::{Cell, Posting};
use crate::limits::{CATEGORIES, DAYS, LARGEST_AMOUNT, LARGEST_CODE, LARGEST_ID};
use crate::sides::Sides;

/// What the pair exchanges: 1 DVP/RVP, 2 DWP/RWP, 3 DFP/RFP, 4 DPFOD/CPFOD.
#[derive(Clone, Copy, Debug, Default, PartialEq, Eq)]
pub enum Kind {
    /// `ArrayVec` asks what it holds for a default, so `Pair` and the enums in it have one.
    #[default]
    AgainstPayment,
    WithPayment,
    FreeOfPayment,
    PaymentOnly,
}

/// An end of the pair; of an enter, who entered last: 1 the deliverer, 2 the receiver.
#[derive(Clone, Copy, Debug, Default, PartialEq, Eq)]
pub enum Side {
    #[default]
    Deliverer,
    Receiver,
}

/// What a pair lacks: 0 nothing, 1 securities, 2 cash. The customer asked for an enum case for each.
#[derive(Clone, Copy, Debug, Default, PartialEq, Eq)]
pub enum Lack {
    #[default]
    Nothing,
    Securities,
    Cash,
}

/// The hold of each side.
#[derive(Clone, Copy, Debug, Default, PartialEq, Eq)]
pub struct Holds {
    pub deliverer: bool,
    pub receiver: bool,
}

/// A pair as an enter gives it: any numbers.
#[derive(Clone, Copy, Debug, PartialEq, Eq)]
pub struct Entry {
    pub id: u64,
    pub kind: u64,
    pub category: u64,
    /// The intended settlement date, a day.
    pub isd: u64,
    pub side: u64,
    /// The value of one SI, in euro cents.
    pub amount: u64,
    pub deliverer: u64,
    pub receiver: u64,
}

/// A pair of a book.
#[derive(Clone, Copy, Debug, Default, PartialEq, Eq)]
pub struct Pair {
    /// The value of one SI, in euro cents.
    pub amount: u64,
    /// The amount less the parts settled.
    pub rest: u64,
    pub id: u16,
    pub kind: Kind,
    pub category: u8,
    /// The intended settlement date, a day.
    pub isd: u8,
    pub side: Side,
    pub deliverer: u8,
    pub receiver: u8,
    pub holds: Holds,
    pub lack: Lack,
    /// The day on which its last part settled.
    pub last_part: Option<u8>,
}

impl TryFrom<u64> for Kind {
    ghost use Rattle.book.specs.Pairs.{GivesKind};

    type Error = Refusal;

    ghost try_from_gives = { GivesKind };

    fn try_from(number: u64) -> Result<Kind, Refusal> {
        match number {
            1 => Ok(Kind::AgainstPayment),
            2 => Ok(Kind::WithPayment),
            3 => Ok(Kind::FreeOfPayment),
            4 => Ok(Kind::PaymentOnly),
            _ => Err(Refusal::OutOfRange),
        }
    }
}

impl TryFrom<u64> for Side {
    ghost use Rattle.book.specs.Pairs.{GivesSide};

    type Error = Refusal;

    ghost try_from_gives = { GivesSide };

    fn try_from(number: u64) -> Result<Side, Refusal> {
        match number {
            1 => Ok(Side::Deliverer),
            2 => Ok(Side::Receiver),
            _ => Err(Refusal::OutOfRange),
        }
    }
}

impl TryFrom<u64> for Lack {
    ghost use Rattle.book.specs.Pairs.{GivesLack};

    type Error = Refusal;

    ghost try_from_gives = { GivesLack };

    fn try_from(number: u64) -> Result<Lack, Refusal> {
        match number {
            0 => Ok(Lack::Nothing),
            1 => Ok(Lack::Securities),
            2 => Ok(Lack::Cash),
            _ => Err(Refusal::OutOfRange),
        }
    }
}

/// Kinds, sides and lacks have the numbers of the rules.
pub fn numbers_match()
    ensures { NumbersMatch }
{}

/// A hold's on/off: 1 on, 0 off.
pub(crate) fn switch_of(on: u64) -> Result<bool, Refusal>
    ensures { result ≡ switch_of on }
{
    match on {
        0 => Ok(false),
        1 => Ok(true),
        _ => Err(Refusal::OutOfRange),
    }
}

impl Entry {
    /// Whether each number but those of kind and side is in its range.
    fn numbers_fit(&self) -> bool
        ensures { result ≡ in_range (record self.now { kind = 1; side = 1 }) }
    {
        (1..=LARGEST_ID).contains(&self.id)
            && (1..=CATEGORIES).contains(&self.category)
            && (0..DAYS).contains(&self.isd)
            && (1..=LARGEST_AMOUNT).contains(&self.amount)
            && (1..=LARGEST_CODE).contains(&self.deliverer)
            && (1..=LARGEST_CODE).contains(&self.receiver)
    }

    /// Whether each value is in its range.
    pub fn is_in_range(&self) -> bool
        ensures { result ≡ in_range self.now }
    {
        self.pair().is_ok()
    }

    /// The pair as it is entered, or number 2.
    #[tactic(auto, using(crate::proofs::Ranges::in_range_lem))]
    pub(crate) fn pair(&self) -> Result<Pair, Refusal>
        ensures { result ≡ if_in_range (in_range self.now) (entered self.now) }
    {
        let kind = Kind::try_from(self.kind)?;
        let side = Side::try_from(self.side)?;
        if !self.numbers_fit() {
            return Err(Refusal::OutOfRange);
        }
        Ok(Pair {
            amount: self.amount,
            rest: self.amount,
            id: self.id as u16,
            kind,
            category: self.category as u8,
            isd: self.isd as u8,
            side,
            deliverer: self.deliverer as u8,
            receiver: self.receiver as u8,
            holds: Holds::default(),
            lack: Lack::default(),
            last_part: None,
        })
    }
}

impl Pair {
    /// Whether it is due.
    pub(crate) fn is_failing(&self, today: u64) -> bool
        ensures { result ≡ is_failing today self.now }
    {
        u64::from(self.isd) <= today
    }

    /// What comes back from a settle of it.
    pub(crate) fn settle_answer(&self, today: u64, part: u64) -> Answer
        ensures { result ≡ settle_answer today part self.now }
    {
        if today < u64::from(self.isd) {
            return Err(Refusal::NotDue);
        }
        if self.holds.deliverer || self.holds.receiver {
            return Err(Refusal::OnHold);
        }
        if part == 0 || part > self.rest {
            return Err(Refusal::WrongPart);
        }
        Ok(())
    }

    /// The pair with the hold of a side on or off.
    pub(crate) fn with_hold(mut self, side: Side, on: bool) -> Pair
        ensures { result ≡ with_hold side on self }
    {
        match side {
            Side::Deliverer => self.holds.deliverer = on,
            Side::Receiver => self.holds.receiver = on,
        }
        self
    }

    /// The pair with that lack.
    pub(crate) fn with_lack(self, lack: Lack) -> Pair
        ensures { result ≡ with_lack lack self }
    {
        Pair { lack, ..self }
    }

    /// The pair with a part settled today.
    pub(crate) fn with_part(self, today: u64, part: u64) -> Pair
        requires open { today < day_limit }
        requires part { part ≤ self.rest }
        ensures { result ≡ with_part today part self }
    {
        Pair {
            rest: self.rest - part,
            last_part: Some(today as u8),
            ..self
        }
    }

    /// What it adds to the figures of a day.
    fn posting(&self, day: u64, figures: Cell) -> Posting
        requires { day < day_limit }
        ensures { result ≡ posting day self.now figures }
    {
        Posting {
            day: day as u8,
            category: self.category,
            deliverer: self.deliverer,
            receiver: self.receiver,
            figures,
        }
    }

    /// What a part of it adds that settles today.
    pub(crate) fn part(&self, today: u64, part: u64) -> Posting
        requires { today < day_limit }
        ensures { result ≡ part_posting today part self.now }
    {
        let first = match self.last_part {
            Some(day) => u64::from(day) != today,
            None => true,
        };
        self.posting(today, Cell::settled_part(part, first))
    }

    /// Its fail at the close of today.
    pub(crate) fn fail(&self, today: u64) -> Posting
        requires { today < day_limit }
        ensures { result ≡ fail_today today self.now }
    {
        let sides = Sides::at_close(self.kind, self.holds, self.lack);
        let on_isd = today == u64::from(self.isd);
        self.posting(today, Cell::fail(sides, self.rest, on_isd))
    }

    /// Its fail on a day before its matching: other sides, and the whole amount.
    pub(crate) fn late_fail(&self, day: u64) -> Posting
        requires { day < day_limit }
        ensures { result ≡ late_fail self.now day }
    {
        let sides = Sides::when_late(self.kind, self.side);
        let on_isd = day == u64::from(self.isd);
        self.posting(day, Cell::fail(sides, self.amount, on_isd))
    }
}
