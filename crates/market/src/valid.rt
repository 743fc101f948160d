// A block that is known to be within its limits, so that arithmetic over it tests nothing again.
ghost use Rattle.std.specs.Prelude.{◌≡◌, MatchResult};
ghost use Rattle.market.specs.Limits.{BlockWithinLimits};

use crate::block::Block;

#[derive(Clone, Copy)]
pub struct ValidBlock {
    block: Block,
    ghost within: { BlockWithinLimits block },
}

// The block of a plain row, if the row is within its limits; the row itself if it is not.
impl TryFrom<Block> for ValidBlock {
    type Error = Block;

    ghost try_from_gives = { λ block r. MatchResult r (λ v. v.block ≡ block) (λ row. (row ≡ block) × (BlockWithinLimits block → ⊥)) };

    fn try_from(block: Block) -> Result<Self, Block> {
        if block.within_limits() {
            Ok(ValidBlock { block })
        } else {
            Err(block)
        }
    }
}

// The plain row again.
impl From<ValidBlock> for Block {
    ghost from_gives = { λ v row. (row ≡ v.block) × BlockWithinLimits row };

    fn from(valid: ValidBlock) -> Block {
        valid.block
    }
}
