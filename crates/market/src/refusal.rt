// The fifteen causes of a refusal, in the order in which they are checked (docs/REFUSALS.md).
ghost use Rattle.std.specs.Prelude.{◌≡◌, Some};
ghost use Rattle.market.specs.Refusals.{faulty, refusal_number, unplaced};
ghost use Rattle.market.specs.Answers.{refusal_text};

use std::fmt;
use table::fault::{Fault, Refusal as Unplaced};

#[derive(Clone, Copy, PartialEq, Eq)]
pub enum Refusal {
    TableSize,
    TableDisturbed,
    OutsideLimits,
    PriceLimits,
    VolumeLimits,
    NoAccount,
    KeyTaken,
    TableFull,
    BlockAbsent,
    SessionNumber,
    CapacityLimit,
    EntryPlaces,
    PositionLimit,
    NoForm,
    WrongState,
}

// The number by which a refusal is printed.
impl From<Refusal> for u8 {
    ghost from_gives = { λ r number. number ≡ refusal_number r };

    fn from(refusal: Refusal) -> u8 {
        match refusal {
            Refusal::TableSize => 1,
            Refusal::TableDisturbed => 2,
            Refusal::OutsideLimits => 3,
            Refusal::PriceLimits => 4,
            Refusal::VolumeLimits => 5,
            Refusal::NoAccount => 6,
            Refusal::KeyTaken => 7,
            Refusal::TableFull => 8,
            Refusal::BlockAbsent => 9,
            Refusal::SessionNumber => 10,
            Refusal::CapacityLimit => 11,
            Refusal::EntryPlaces => 12,
            Refusal::PositionLimit => 13,
            Refusal::NoForm => 14,
            Refusal::WrongState => 15,
        }
    }
}

// What is wrong with a table.
impl From<Fault> for Refusal {
    ghost from_gives = { λ fault refusal. refusal ≡ faulty fault };

    fn from(fault: Fault) -> Refusal {
        match fault {
            Fault::Size => Refusal::TableSize,
            Fault::Disturbed => Refusal::TableDisturbed,
        }
    }
}

// Why a table does not take a row.
impl From<Unplaced> for Refusal {
    ghost from_gives = { λ why refusal. refusal ≡ unplaced why };

    fn from(why: Unplaced) -> Refusal {
        match why {
            Unplaced::Taken => Refusal::KeyTaken,
            Unplaced::Full => Refusal::TableFull,
        }
    }
}

impl fmt::Display for Refusal {
    ghost output = { λ r. Some (refusal_text r) };

    fn fmt<W: fmt::Write>(&self, f: &mut fmt::Formatter<W>) -> fmt::Result {
        let number = u8::from(*self);
        write!(f, "(no {number})")
    }
}
