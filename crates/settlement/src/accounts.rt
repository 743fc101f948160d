// The accounts that entries are posted to.
ghost use Rattle.std.specs.Prelude.{◌≡◌};
ghost use Rattle.settlement.specs.Postings.{has_account};

use market::account::Account;

// Whether the agent has an account.
pub(crate) fn has_account(accounts: &[Account], agent: u32) -> bool
    ensures { result ≡ has_account accounts.now agent }
{
    accounts.iter().any(|account| account.agent == agent)
}
