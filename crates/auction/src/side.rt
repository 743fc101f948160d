// The order of one side: which price comes first, and how a price stands to the marginal one.
ghost use Rattle.std.specs.Prelude.{◌≡◌};
ghost use Rattle.auction.specs.Curve.{place};
ghost use Rattle.auction.specs.Offers.{comes_first, rank_of};

use market::block::Block;
use market::zone::Side;
use std::cmp::Ordering;

// How a price stands to the marginal price of its side: before it, tied with it, or after it.
pub fn place_of(side: Side, marginal: i32, price: i32) -> Ordering
    ensures { result ≡ place (rank_of side marginal) (rank_of side price) }
{
    match side {
        Side::Sale => price.cmp(&marginal),
        Side::Purchase => marginal.cmp(&price),
    }
}

// Whether `block` stands before `other`.
pub fn stands_first(side: Side, block: &Block, other: &Block) -> bool
    ensures { result ≡ comes_first (rank_of side) block.now other.now }
{
    match place_of(side, other.bid.price, block.bid.price) {
        Ordering::Less => true,
        Ordering::Equal => block.bid.wins_tie(&other.bid),
        Ordering::Greater => false,
    }
}
