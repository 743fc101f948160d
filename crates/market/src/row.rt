// A row of a table of blocks: a sale or a purchase.
ghost use Rattle.std.specs.Prelude.{◌≡◌};
ghost use Rattle.market.specs.declared.block.Block.{Block};
ghost use Rattle.market.specs.declared.zone.Side as side;
ghost use Rattle.market.specs.declared.zone.Side.TheVariants as side-of;

use crate::block::Block;
use crate::purchase::Purchase;
use crate::sale::Sale;
use crate::zone::Side;

pub trait BlockRow: Copy {
    // The block in a row, and the side that such rows are of.
    ghost held: { Self → Block };

    ghost traded: { side.Side };

    fn block(&self) -> Block
        ensures { result ≡ held self.now };

    // No `From`, whose promise could not be said by `held`.
    fn of(block: Block) -> Self
        ensures { held result ≡ block };

    fn side() -> Side
        ensures { result ≡ traded };
}

impl BlockRow for Sale {
    ghost held = { λ s. s.block };

    ghost traded = { side-of.Sale };

    fn block(&self) -> Block {
        let Sale { block } = *self;
        block
    }

    fn of(block: Block) -> Sale {
        Sale { block }
    }

    fn side() -> Side {
        Side::Sale
    }
}

impl BlockRow for Purchase {
    ghost held = { λ p. p.block };

    ghost traded = { side-of.Purchase };

    fn block(&self) -> Block {
        let Purchase { block } = *self;
        block
    }

    fn of(block: Block) -> Purchase {
        Purchase { block }
    }

    fn side() -> Side {
        Side::Purchase
    }
}
