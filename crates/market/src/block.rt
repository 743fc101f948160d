// Bids and blocks. Volumes are in tenths of a MWh, prices in cents per MWh (docs/MARKET.md).
ghost use Rattle.std.specs.Prelude.{◌≡◌, Decides, Some};
ghost use Rattle.market.specs.Answers.{bid_text};
ghost use Rattle.market.specs.Limits.{BlockWithinLimits, KeyWithinLimits, NameWithinLimits};
ghost use Rattle.market.specs.Entering.{bid_causes, fresh};
ghost use Rattle.market.specs.Refusals.{FirstCause};
ghost use Rattle.market.specs.Precedence.{at_one_price, key_code, key_of, lex, same_key};

use crate::limits::{
    agent_within, number_within, price_within, stamp_within, unit_within, volume_within,
};
use crate::refusal::Refusal;
use std::fmt;

// What an agent enters.
#[derive(Clone, Copy, PartialEq, Eq, Default)]
pub struct Bid {
    pub agent: u32,
    pub unit: u32,
    pub number: u32,
    pub stamp: u32,
    pub price: i32,
    pub volume: u32,
}

// As a line of a call file writes it.
impl fmt::Display for Bid {
    ghost output = { λ b. Some (bid_text b) };

    #[tactic(auto, unfolding(crate::specs::Answers::bid_text))]
    fn fmt<W: fmt::Write>(&self, f: &mut fmt::Formatter<W>) -> fmt::Result {
        let Bid {
            agent,
            unit,
            number,
            stamp,
            price,
            volume,
        } = *self;
        write!(f, "({agent} {unit} {number} {stamp} {price} {volume})")
    }
}

// A bid as it stands in a table, with the part of its volume that is matched.
#[derive(Clone, Copy, PartialEq, Eq, Default)]
pub struct Block {
    pub bid: Bid,
    pub matched: u32,
}

// What tells the blocks of one table apart: the unit and the block number.
#[derive(Clone, Copy, PartialEq, Eq)]
pub struct BlockKey {
    pub unit: u32,
    pub number: u32,
}

// A number of the key, another one for every other key.
impl From<BlockKey> for u64 {
    ghost from_gives = { λ key code. code ≡ key_code key };

    fn from(key: BlockKey) -> u64 {
        key.unit as u64 * 0x1_0000_0000 + key.number as u64
    }
}

impl BlockKey {
    pub fn same(self, other: BlockKey) -> bool
        ensures { result ≡ same_key self other }
    {
        self == other
    }

    pub fn within_limits(self) -> bool
        ensures { Decides result (KeyWithinLimits self) }
    {
        unit_within(self.unit) && number_within(self.number)
    }
}

impl Bid {
    pub fn key(&self) -> BlockKey
        ensures { result ≡ key_of self.now }
    {
        let Bid { unit, number, .. } = *self;
        BlockKey { unit, number }
    }

    // Which of two bids of one price comes first.
    pub fn wins_tie(&self, other: &Bid) -> bool
        ensures { result ≡ lex (at_one_price self.now) (at_one_price other.now) }
    {
        let rank = |bid: &Bid| (bid.stamp, bid.volume, bid.unit, bid.number);
        rank(self) < rank(other)
    }

    // Whether agent, unit, block number and stamp are within their limits.
    pub fn names_within(&self) -> bool
        ensures { Decides result (NameWithinLimits self.now) }
    {
        agent_within(self.agent) && self.key().within_limits() && stamp_within(self.stamp)
    }
}

impl Bid {
    // The first limit that the bid fails: that of a name, of the price or of the volume.
    pub fn check(&self) -> Result<(), Refusal>
        ensures { FirstCause (bid_causes self.now) result }
    {
        if !self.names_within() {
            return Err(Refusal::OutsideLimits);
        }
        if !price_within(self.price) {
            return Err(Refusal::PriceLimits);
        }
        if !volume_within(self.volume) {
            return Err(Refusal::VolumeLimits);
        }
        Ok(())
    }
}

impl Block {
    // A bid of which nothing is matched.
    pub fn unmatched(bid: Bid) -> Block
        ensures { result ≡ fresh bid }
    {
        Block { bid, matched: 0 }
    }

    pub fn within_limits(&self) -> bool
        ensures { Decides result (BlockWithinLimits self.now) }
    {
        self.bid.names_within()
            && price_within(self.bid.price)
            && volume_within(self.bid.volume)
            && self.matched <= self.bid.volume
    }
}
