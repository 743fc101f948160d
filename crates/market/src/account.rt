// An agent's account: what the exchange owes the agent, in cents.
ghost use Rattle.market.specs.Limits.{AccountWithinLimits};
ghost use Rattle.market.specs.Precedence.{account_order};
ghost use Rattle.std.proofs.Common.{rules};

use crate::limits::{agent_within, position_within};
use table::record::Record;

#[derive(Clone, Copy, PartialEq, Eq, Default)]
pub struct Account {
    pub agent: u32,
    pub position: i64,
}

impl Record for Account {
    type Key = u32;

    const MAX: usize = 512;

    ghost MAX = { 512 };

    ghost order = { account_order };

    ghost code = { λ agent. agent };

    ghost coded = { λ _. Unit {0} };

    ghost limits = { AccountWithinLimits };

    ghost lawful = { Prim.search rules };

    ghost tells = { Prim.search rules };

    fn key(&self) -> u32 {
        self.agent
    }

    fn key_code(&self) -> u64 {
        self.agent as u64
    }

    fn same_key(a: u32, b: u32) -> bool {
        a == b
    }

    fn before(&self, other: &Account) -> bool {
        self.agent < other.agent
    }

    fn within_limits(&self) -> bool {
        agent_within(self.agent) && position_within(self.position)
    }
}
