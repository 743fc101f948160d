// A sale block as a row of a table: the cheapest comes first. Sales and purchases are two types, so that neither stands in a table of
// the other; one type over a const parameter would call them `Row<true>` and `Row<false>`, and specs `Row 1` and `Row 0`.
ghost use Rattle.market.specs.Limits.{BlockWithinLimits};
ghost use Rattle.std.specs.Prelude.{◌<◌};
ghost use Rattle.market.specs.Precedence.{key_code, sale_order};
ghost use Rattle.market.specs.Keys.{ranked_lawful};
ghost use Rattle.std.proofs.Common.{rules};

use crate::block::{Block, BlockKey};
use table::record::Record;

#[derive(Clone, Copy, PartialEq, Eq, Default)]
pub struct Sale {
    pub block: Block,
}

impl Record for Sale {
    type Key = BlockKey;

    const MAX: usize = 256;

    ghost MAX = { 256 };

    ghost order = { sale_order };

    ghost code = { key_code };

    ghost coded = { λ k. k.number < 4294967296 };

    ghost limits = { λ s. BlockWithinLimits s.block };

    ghost lawful = { ranked_lawful (λ s. s.block.bid) (λ b. b.price) };

    ghost tells = { Prim.search rules };

    fn key(&self) -> BlockKey {
        self.block.bid.key()
    }

    fn key_code(&self) -> u64 {
        u64::from(self.block.bid.key())
    }

    fn same_key(a: BlockKey, b: BlockKey) -> bool {
        a.same(b)
    }

    fn before(&self, other: &Sale) -> bool {
        if self.block.bid.price != other.block.bid.price {
            self.block.bid.price < other.block.bid.price
        } else {
            self.block.bid.wins_tie(&other.block.bid)
        }
    }

    fn within_limits(&self) -> bool {
        self.block.within_limits()
    }
}
