// What an exchange carries from session to session.
ghost use Rattle.std.specs.Prelude.{◌≡◌};
ghost use Rattle.market.specs.Refusals.{FirstCause};
ghost use Rattle.session.specs.Causes.{admit_causes, begin_causes};
ghost use Rattle.session.specs.Changes.{Admits, BegunWith, Leaves, new_ledger};
ghost use Rattle.session.specs.Tables.{lent};

use crate::rows::put;
use market::account::Account;
use market::capacities::Capacities;
use market::limits::agent_within;
use market::refusal::Refusal;
use settlement::totals::Totals;
use table::table::Table;

#[derive(Clone, Copy, Default)]
pub struct Ledger {
    // How many accounts are counted.
    pub accounts: usize,
    pub last_session: u32,
    pub totals: Totals,
}

impl Ledger {
    // Adds the agent's account, with a position of 0.
    pub fn admit(self, accounts: &mut [Account], agent: u32) -> Result<Ledger, Refusal>
        ensures why { FirstCause (admit_causes agent (lent accounts.old self.accounts)) result }
        ensures after { Leaves accounts.old (Admits agent accounts.old self) result accounts.new }
    {
        let mut table = Table::new(accounts, self.accounts);
        table.check()?;
        if !agent_within(agent) {
            return Err(Refusal::OutsideLimits);
        }
        let accounts = put(&mut table, Account { agent, position: 0 })?;
        Ok(Ledger { accounts, ..self })
    }
}

const MAX_SESSION: u32 = 1_000_000;

impl Ledger {
    // A ledger with no account, before the first session.
    pub fn new() -> Ledger
        ensures { result ≡ new_ledger }
    {
        Ledger::default()
    }

    // Begins a session: the ledger with its number, and its capacities.
    pub fn begin(
        self,
        number: u32,
        forward: u32,
        backward: u32,
    ) -> Result<(Ledger, Capacities), Refusal>
        ensures why { FirstCause (begin_causes self.last_session number forward backward) result }
        ensures after { BegunWith self number forward backward result }
    {
        if number > MAX_SESSION || number <= self.last_session {
            return Err(Refusal::SessionNumber);
        }
        let capacities = Capacities::new(forward, backward)?;
        let ledger = Ledger {
            last_session: number,
            ..self
        };
        Ok((ledger, capacities))
    }

    // The ledger with another income and another residue.
    pub fn with_totals(self, totals: Totals) -> Ledger
        ensures { result ≡ record { accounts = self.accounts; last_session = self.last_session; totals = totals } }
    {
        Ledger { totals, ..self }
    }
}
