// Settling a cleared session: entries in whole cents, the accounts that they are posted to, and what rounding leaves over
// (docs/MARKET.md). The tables are taken as counted slices; their limits and their order are checked elsewhere.
#![tactic(auto)]

mod accounts;
mod amount;
pub mod entry;
mod postings;
pub mod rounding;
pub mod session;
pub mod settle;
mod sides;
pub mod totals;

#[cfg(test)]
mod tests {
    use crate::entry::Entry;
    use crate::rounding::nearest_cent;
    use crate::session::{ClearedSession, ClearedZone};
    use crate::settle::settle;
    use crate::totals::Totals;
    use market::account::Account;
    use market::block::{Bid, Block};
    use market::purchase::Purchase;
    use market::sale::Sale;
    use std::test::Fail;

    #[test]
    fn halves_go_away_from_zero(rt: HostRuntime) {
        assert_eq!(rt; nearest_cent(2005), 201);
        assert_eq!(rt; nearest_cent(-2005), -201);
        assert_eq!(rt; nearest_cent(2004), 200);
    }

    fn matched(agent: u32, unit: u32, volume: u32) -> Block {
        Block {
            bid: Bid {
                agent,
                unit,
                number: 1,
                stamp: 0,
                price: 2005,
                volume,
            },
            matched: volume,
        }
    }

    #[test]
    fn first_settled_session(rt: HostRuntime) -> Result<(), Fail> {
        let sales = [
            Sale {
                block: matched(1, 11, 1),
            },
            Sale {
                block: matched(1, 12, 1),
            },
        ];
        let purchases = [Purchase {
            block: matched(2, 21, 2),
        }];
        let one = ClearedZone {
            sales: &sales,
            purchases: &purchases,
            price: 2005,
        };
        let two = ClearedZone {
            sales: &sales[..0],
            purchases: &purchases[..0],
            price: 2005,
        };
        let mut accounts = [
            Account {
                agent: 1,
                position: 0,
            },
            Account {
                agent: 2,
                position: 0,
            },
        ];
        let mut entries = [Entry {
            agent: 7,
            unit: 7,
            number: 7,
            cents: 7,
        }; 5];
        let Ok(settled) = settle(
            ClearedSession { one, two, flow: 0 },
            &mut accounts,
            &mut entries,
            Totals {
                income: 0,
                residue: 0,
            },
        ) else {
            return Err(Fail::new("refused"));
        };
        assert_eq!(rt; settled.entries, 4);
        assert_eq!(rt; [settled.session.income, settled.session.residue], [0, -1]);
        assert_eq!(rt;
            [
                entries[0].cents,
                entries[1].cents,
                entries[2].cents,
                entries[3].cents,
            ],
            [201, 201, -401, 0]
        );
        assert_eq!(rt; [accounts[0].position, accounts[1].position], [402, -401]);
        Ok(())
    }
}
