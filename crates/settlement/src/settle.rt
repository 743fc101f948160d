// Settling a cleared session into the accounts.
ghost use Rattle.std.specs.Prelude.{◌≡◌, length, ◌+ℤ◌, Some};
ghost use Rattle.market.specs.Limits.{PositionWithinLimits};
ghost use Rattle.market.specs.Refusals.{FirstCause};
ghost use Rattle.settlement.specs.Answers.{settled_text};
ghost use Rattle.settlement.specs.Balance.{Balanced};
ghost use Rattle.settlement.specs.Entries.{entries_of};
ghost use Rattle.settlement.specs.Postings.{income_of, residue_of};
ghost use Rattle.settlement.specs.Sessions.{outcome_of};
ghost use Rattle.settlement.specs.Settling.{Reported, Settlement, settle_causes};

use crate::entry::Entry;
use crate::postings::{limits_kept, post};
use crate::session::ClearedSession;
use crate::totals::Totals;
use market::account::Account;
use market::refusal::Refusal;
use std::fmt;

// What a settlement reports: how many entries it wrote, the totals of the session, and those of the exchange after it.
#[derive(Clone, Copy)]
pub struct Settled {
    pub entries: usize,
    pub session: Totals,
    pub exchange: Totals,
}

// The income and the residue of the session; the entries are printed before them.
impl fmt::Display for Settled {
    ghost output = { λ s. Some (settled_text s) };

    fn fmt<W: fmt::Write>(&self, f: &mut fmt::Formatter<W>) -> fmt::Result {
        let Totals { income, residue } = self.session;
        write!(f, "(settled (income {income}) (residue {residue}))")
    }
}

// The report of a settlement that is accepted.
fn report(session: ClearedSession<'_>, entries: usize, totals: Totals) -> Settled
    requires balanced { Balanced (outcome_of session) × (entries ≡ length (entries_of (outcome_of session))) }
    requires position_limits { PositionWithinLimits (totals.income +ℤ income_of (outcome_of session)) × PositionWithinLimits (totals.residue +ℤ residue_of (outcome_of session)) }
    ensures { Reported (outcome_of session.entry) totals.income totals.residue result }
{
    let income = session.income();
    let residue = session.residue() as i64;
    Settled {
        entries,
        session: Totals { income, residue },
        exchange: Totals {
            income: totals.income + income,
            residue: totals.residue + residue,
        },
    }
}

// Writes the entries of a session, posts them to the accounts, and reports the new income and residue of the exchange, whose
// totals so far are given. The accounts are the counted ones.
pub fn settle(
    session: ClearedSession<'_>,
    accounts: &mut [Account],
    entries: &mut [Entry],
    totals: Totals,
) -> Result<Settled, Refusal>
    ensures cause { FirstCause (settle_causes (outcome_of session.entry) accounts.old entries.old totals.income totals.residue) result }
    ensures settlement { Settlement (outcome_of session.entry) totals.income totals.residue accounts.old accounts.new entries.old entries.new result }
{
    if !session.is_balanced() {
        return Err(Refusal::TableDisturbed);
    }
    if !session.agents_known(&*accounts) {
        return Err(Refusal::NoAccount);
    }
    let count = session.entry_count();
    if (entries.len() as u128) < count {
        return Err(Refusal::EntryPlaces);
    }
    if !limits_kept(session, &*accounts, totals) {
        return Err(Refusal::PositionLimit);
    }
    let settled = report(session, count as usize, totals);
    session.write_entries(entries);
    post(session, accounts);
    Ok(settled)
}
