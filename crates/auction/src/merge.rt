// Two zones' blocks merged into one side, and taken apart again.
ghost use Rattle.std.specs.Prelude.{◌≡◌, ◌+◌, ◌≤◌, [], ◌∷◌, ◌++◌, map, length, take, drop, MatchOption};
ghost use Rattle.auction.specs.Offers.{merged, part, rank_of, second_first};

use crate::offer::Offer;
use crate::side::stands_first;
use market::block::Block;
use market::row::BlockRow;
use market::zone::Zone;

// Whether the next block is one of zone 2.
fn second_next<R: BlockRow>(one: &[R], two: &[R]) -> bool
    ensures { result ≡ second_first (rank_of R.traded) (map R.held one.now) (map R.held two.now) }
{
    let Some(first) = one.first() else {
        return true;
    };
    let Some(second) = two.first() else {
        return false;
    };
    stands_first(R::side(), &second.block(), &first.block())
}

// The next offer, and the rows that each zone then has left.
fn next_offer<'a, 'b, R: BlockRow>(one: &'a [R], two: &'b [R]) -> Option<(Offer, &'a [R], &'b [R])>
    ensures { MatchOption result (merged (rank_of R.traded) (map R.held one.now) (map R.held two.now) ≡ []) (λ r. merged (rank_of R.traded) (map R.held one.now) (map R.held two.now) ≡ r.0 ∷ merged (rank_of R.traded) (map R.held r.1.now) (map R.held r.2.now)) }
{
    if second_next(one, two) {
        let (second, others) = two.split_first()?;
        let offer = Offer {
            zone: Zone::Two,
            block: second.block(),
        };
        Some((offer, one, others))
    } else {
        let (first, others) = one.split_first()?;
        let offer = Offer {
            zone: Zone::One,
            block: first.block(),
        };
        Some((offer, others, two))
    }
}

// Merges the blocks of zone 1 and of zone 2 into the first places of `offers`.
pub(crate) fn merge<R: BlockRow>(mut one: &[R], mut two: &[R], offers: &mut [Offer])
    requires { length one.now + length two.now ≤ length offers.old }
    ensures { take (length one.now + length two.now) offers.new ≡ merged (rank_of R.traded) (map R.held one.now) (map R.held two.now) }
{
    for place in offers.iter_mut() {
        let Some((offer, first, second)) = next_offer(one, two) else {
            return;
        };
        *place = offer;
        one = first;
        two = second;
    }
}

// The first block of the zone, and the offers behind it.
fn next_of(zone: Zone, mut offers: &[Offer]) -> Option<(Block, &[Offer])>
    ensures { MatchOption result (part zone offers.now ≡ []) (λ r. part zone offers.now ≡ r.0 ∷ part zone r.1.now) }
{
    while let Some((first, rest)) = offers.split_first() {
        if first.zone == zone {
            return Some((first.block, rest));
        }
        offers = rest;
    }
    None
}

// Writes a zone's offers back to the first rows of its table.
pub(crate) fn write_back<R: BlockRow>(rows: &mut [R], zone: Zone, mut offers: &[Offer])
    requires { length (part zone offers.now) ≤ length rows.old }
    ensures { map R.held rows.new ≡ part zone offers.now ++ drop (length (part zone offers.now)) (map R.held rows.old) }
{
    for row in rows.iter_mut() {
        let Some((block, rest)) = next_of(zone, offers) else {
            return;
        };
        *row = R::of(block);
        offers = rest;
    }
}
