// Posting the entries of a session to the accounts.
ghost use Rattle.std.specs.Prelude.{◌≡◌, ◌+ℤ◌, Decides};
ghost use Rattle.std.specs.List.{AllByRecursion};
ghost use Rattle.market.specs.Limits.{PositionWithinLimits};
ghost use Rattle.settlement.specs.Balance.{Balanced};
ghost use Rattle.settlement.specs.Entries.{block_entries};
ghost use Rattle.settlement.specs.Postings.{WithinLimits, accounts_after, income_of, posted, residue_of};
ghost use Rattle.settlement.specs.Sessions.{outcome_of};

use crate::session::ClearedSession;
use crate::totals::Totals;
use market::account::Account;
use market::limits::position_within;

// Whether a position, the income or the residue may stand there.
fn may_stand(cents: i128) -> bool
    ensures { Decides result (PositionWithinLimits cents) }
{
    i64::try_from(cents).is_ok_and(position_within)
}

// The position of an account after the last entry.
fn position_after(session: ClearedSession<'_>, account: Account) -> i128
    ensures value { result ≡ account.position +ℤ posted account.agent (block_entries (outcome_of session.entry)) }
{
    account.position as i128 + session.posted_cents(account.agent)
}

// Whether every position may stand where it does after the last entry.
fn positions_may_stand(session: ClearedSession<'_>, accounts: &[Account]) -> bool
    ensures { Decides result (AllByRecursion (λ a. PositionWithinLimits a.position) (accounts_after (outcome_of session.entry) accounts.now)) }
{
    accounts
        .iter()
        .all(|account| may_stand(position_after(session, *account)))
}

// Posts the entries to the accounts.
pub(crate) fn post(session: ClearedSession<'_>, accounts: &mut [Account])
    requires { AllByRecursion (λ a. PositionWithinLimits a.position) (accounts_after (outcome_of session) accounts.old) }
    ensures { accounts.new ≡ accounts_after (outcome_of session.entry) accounts.old }
{
    for account in accounts.iter_mut() {
        account.position = position_after(session, *account) as i64;
    }
}

// Whether the income and the residue may stand where they do after the last entry.
fn totals_may_stand(session: ClearedSession<'_>, totals: Totals) -> bool
    requires { Balanced (outcome_of session) }
    ensures { Decides result (PositionWithinLimits (totals.income +ℤ income_of (outcome_of session.entry)) × PositionWithinLimits (totals.residue +ℤ residue_of (outcome_of session.entry))) }
{
    may_stand(totals.income as i128 + session.income() as i128)
        && may_stand(totals.residue as i128 + session.residue())
}

// Whether no position, nor the income, nor the residue would stand past its limits after the last entry.
pub(crate) fn limits_kept(session: ClearedSession<'_>, accounts: &[Account], totals: Totals) -> bool
    requires { Balanced (outcome_of session) }
    ensures { Decides result (WithinLimits (outcome_of session.entry) accounts.now totals.income totals.residue) }
{
    positions_may_stand(session, accounts) && totals_may_stand(session, totals)
}
