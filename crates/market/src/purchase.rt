// A purchase block as a row of a table: the dearest comes first. It is a type of its own, as `Sale` says.
ghost use Rattle.market.specs.Limits.{BlockWithinLimits};
ghost use Rattle.std.specs.Prelude.{◌<◌, neg_ℤ};
ghost use Rattle.market.specs.Precedence.{key_code, purchase_order};
ghost use Rattle.market.specs.Keys.{ranked_lawful};
ghost use Rattle.std.proofs.Common.{rules};

use crate::block::{Block, BlockKey};
use table::record::Record;

#[derive(Clone, Copy, PartialEq, Eq, Default)]
pub struct Purchase {
    pub block: Block,
}

impl Record for Purchase {
    type Key = BlockKey;

    const MAX: usize = 256;

    ghost MAX = { 256 };

    ghost order = { purchase_order };

    ghost code = { key_code };

    ghost coded = { λ k. k.number < 4294967296 };

    ghost limits = { λ p. BlockWithinLimits p.block };

    ghost lawful = { ranked_lawful (λ p. p.block.bid) (λ b. neg_ℤ b.price) };

    ghost tells = { Prim.search rules };

    fn key(&self) -> BlockKey {
        self.block.bid.key()
    }

    fn key_code(&self) -> u64 {
        u64::from(self.block.bid.key())
    }

    fn same_key(a: BlockKey, b: BlockKey) -> bool {
        a.same(b)
    }

    fn before(&self, other: &Purchase) -> bool {
        if self.block.bid.price != other.block.bid.price {
            self.block.bid.price > other.block.bid.price
        } else {
            self.block.bid.wins_tie(&other.block.bid)
        }
    }

    fn within_limits(&self) -> bool {
        self.block.within_limits()
    }
}
