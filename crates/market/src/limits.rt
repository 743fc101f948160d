// The limits of each field of a record (docs/MARKET.md). A function for each, and not one over a range: a call then names the limit
// (`stamp_within(stamp)`) where it would spell the range.
ghost use Rattle.std.specs.Prelude.{Decides};
ghost use Rattle.market.specs.Limits.{AgentWithinLimits, NumberWithinLimits, PositionWithinLimits, PriceWithinLimits, StampWithinLimits, UnitWithinLimits, VolumeWithinLimits};

pub const MAX_AGENT: u32 = 9_999;

pub const MAX_UNIT: u32 = 999_999;

pub const MAX_NUMBER: u32 = 25;

pub const MAX_STAMP: u32 = 999_999_999;

pub const MIN_PRICE: i32 = -50_000;

pub const MAX_PRICE: i32 = 300_000;

pub const MAX_VOLUME: u32 = 100_000;

pub const MAX_POSITION: i64 = 100_000_000_000_000;

pub fn agent_within(agent: u32) -> bool
    ensures { Decides result (AgentWithinLimits agent) }
{
    (1..=MAX_AGENT).contains(&agent)
}

pub fn unit_within(unit: u32) -> bool
    ensures { Decides result (UnitWithinLimits unit) }
{
    (1..=MAX_UNIT).contains(&unit)
}

pub fn number_within(number: u32) -> bool
    ensures { Decides result (NumberWithinLimits number) }
{
    (1..=MAX_NUMBER).contains(&number)
}

pub fn stamp_within(stamp: u32) -> bool
    ensures { Decides result (StampWithinLimits stamp) }
{
    stamp <= MAX_STAMP
}

pub fn price_within(price: i32) -> bool
    ensures { Decides result (PriceWithinLimits price) }
{
    (MIN_PRICE..=MAX_PRICE).contains(&price)
}

pub fn volume_within(volume: u32) -> bool
    ensures { Decides result (VolumeWithinLimits volume) }
{
    (1..=MAX_VOLUME).contains(&volume)
}

pub fn position_within(position: i64) -> bool
    ensures { Decides result (PositionWithinLimits position) }
{
    (-MAX_POSITION..=MAX_POSITION).contains(&position)
}
