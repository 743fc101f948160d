// Settling by the engine.
ghost use Rattle.market.specs.Refusals.{FirstCause};
ghost use Rattle.settlement.specs.Sessions.{outcome_of};
ghost use Rattle.settlement.specs.Settling.{Settlement, settle_causes};

use crate::engine::Engine;
use market::account::Account;
use market::refusal::Refusal;
use settlement::entry::Entry;
use settlement::session::ClearedSession;
use settlement::settle::{Settled, settle};
use settlement::totals::Totals;

impl<P, S> Engine<P, S> {
    // Writes the entries of a cleared session, posts them to the accounts, and reports the new income and residue of the exchange, whose
    // totals so far are given. The accounts are the counted ones.
    pub fn settle(
        &self,
        session: ClearedSession<'_>,
        accounts: &mut [Account],
        entries: &mut [Entry],
        totals: Totals,
    ) -> Result<Settled, Refusal>
        ensures cause { FirstCause (settle_causes (outcome_of session.entry) accounts.old entries.old totals.income totals.residue) result }
        ensures settlement { Settlement (outcome_of session.entry) totals.income totals.residue accounts.old accounts.new entries.old entries.new result }
    {
        settle(session, accounts, entries, totals)
    }
}
