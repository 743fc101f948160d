// The two price zones, and the two sides of a zone's market.
ghost use Rattle.std.specs.Prelude.{Some};
ghost use Rattle.market.specs.Zones.{Numbered, side_text, zone_text};

use crate::refusal::Refusal;
use std::fmt;

#[derive(Clone, Copy, PartialEq, Eq)]
pub enum Zone {
    One,
    Two,
}

#[derive(Clone, Copy, PartialEq, Eq)]
pub enum Side {
    Sale,
    Purchase,
}

// The zone with the number.
impl TryFrom<u32> for Zone {
    type Error = Refusal;

    ghost try_from_gives = { Numbered };

    fn try_from(number: u32) -> Result<Self, Refusal> {
        match number {
            1 => Ok(Zone::One),
            2 => Ok(Zone::Two),
            _ => Err(Refusal::OutsideLimits),
        }
    }
}

impl fmt::Display for Zone {
    ghost output = { λ z. Some (zone_text z) };

    fn fmt<W: fmt::Write>(&self, f: &mut fmt::Formatter<W>) -> fmt::Result {
        match self {
            Zone::One => write!(f, "1"),
            Zone::Two => write!(f, "2"),
        }
    }
}

impl fmt::Display for Side {
    ghost output = { λ s. Some (side_text s) };

    fn fmt<W: fmt::Write>(&self, f: &mut fmt::Formatter<W>) -> fmt::Result {
        match self {
            Side::Sale => write!(f, "sale"),
            Side::Purchase => write!(f, "purchase"),
        }
    }
}
