// What the interconnector can carry in a session.
ghost use Rattle.std.specs.Prelude.{◌≡◌, ◌≤◌, MatchResult};
ghost use Rattle.market.specs.declared.refusal.Refusal.TheVariants.{CapacityLimit};

use crate::refusal::Refusal;

pub const MAX_CAPACITY: u32 = 30_000_000;

// In tenths of a MWh, from zone 1 to zone 2 and from zone 2 to zone 1.
#[derive(Clone, Copy)]
pub struct Capacities {
    forward: u32,
    backward: u32,
    ghost within: { (forward ≤ 30000000) × (backward ≤ 30000000) },
}

impl Capacities {
    pub fn new(forward: u32, backward: u32) -> Result<Capacities, Refusal>
        ensures { MatchResult result (λ c. (c.forward ≡ forward) × (c.backward ≡ backward)) (λ why. (why ≡ CapacityLimit) × ((forward ≤ 30000000) × (backward ≤ 30000000) → ⊥)) }
    {
        if forward > MAX_CAPACITY || backward > MAX_CAPACITY {
            return Err(Refusal::CapacityLimit);
        }
        Ok(Capacities { forward, backward })
    }

    pub fn forward(self) -> u32
        ensures value { result ≡ self.forward }
        ensures within { result ≤ 30000000 }
    {
        self.forward
    }

    pub fn backward(self) -> u32
        ensures value { result ≡ self.backward }
        ensures within { result ≤ 30000000 }
    {
        self.backward
    }
}
