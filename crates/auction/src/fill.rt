// What is matched of one side.
ghost use Rattle.std.specs.Prelude.{◌≡◌, ◌+◌, ◌-◌, ◌≤◌, length, ◌≤ℤ◌};
ghost use Rattle.std.specs.List.{AllByRecursion};
ghost use Rattle.market.specs.Limits.{VolumeWithinLimits};
ghost use Rattle.std.specs.declared.cmp.Ordering.TheVariants.{Equal};
ghost use Rattle.auction.specs.Curve.{ahead, behind, by_place, fill, match_side, nothing, nth_price, place, tie};
ghost use Rattle.auction.specs.Offers.{price_of, rank_of, volume_of};
ghost use Rattle.auction.specs.Ready.{Ready};

use crate::offer::Offer;
use crate::side::place_of;
use market::zone::Side;
use rules::sharing::SharingRule;
use std::cmp::Ordering;

// What is given of the tenths at the marginal price: `amount` of the `tied` ones.
#[derive(Clone, Copy)]
struct Shared {
    amount: u32,
    tied: u32,
    ghost enough: { amount ≤ tied },
}

// The volume, as tenths ahead of the marginal price and as tenths at it.
fn counted(place: Ordering, volume: u32) -> (u32, u32)
    ensures { result ≡ (by_place volume 0 0 place, by_place 0 volume 0 place) }
{
    match place {
        Ordering::Less => (volume, 0),
        Ordering::Equal => (0, volume),
        Ordering::Greater => (0, 0),
    }
}

// The tenths ahead of the marginal price, and those at it.
fn standing(offers: &[Offer], side: Side, marginal: i32) -> (u32, u32)
    requires bids { AllByRecursion (λ o. VolumeWithinLimits (volume_of o)) offers.now }
    requires few { length offers.now ≤ 512 }
    ensures ahead { result.0 ≡ ahead (rank_of side) (rank_of side marginal) offers.now }
    ensures tied { result.1 ≡ tie (rank_of side) (rank_of side marginal) offers.now }
{
    let mut ahead: u32 = 0;
    let mut tied: u32 = 0;
    for offer in offers {
        let (before, at) = counted(
            place_of(side, marginal, offer.block.bid.price),
            offer.block.bid.volume,
        );
        ahead += before;
        tied += at;
    }
    (ahead, tied)
}

// What is matched of a block, and how many tied tenths are passed after it, where `passed` of them are ahead of it.
fn part<S: SharingRule>(
    rule: &S,
    place: Ordering,
    volume: u32,
    shared: Shared,
    passed: u32,
) -> (u32, u32)
    requires room { place ≡ Equal → passed + volume ≤ shared.tied }
    ensures matched { result.0 ≡ by_place volume (S.SharingRule.meaning rule.now shared.amount shared.tied (passed + volume) - S.SharingRule.meaning rule.now shared.amount shared.tied passed) 0 place }
    ensures next { result.1 ≡ by_place passed (passed + volume) passed place }
{
    match place {
        Ordering::Less => (volume, passed),
        Ordering::Equal => {
            let next = passed + volume;
            (
                rule.given(shared.amount, shared.tied, next)
                    - rule.given(shared.amount, shared.tied, passed),
                next,
            )
        }
        Ordering::Greater => (0, passed),
    }
}

// Matches a side: blocks before the marginal price whole, those at it by what is shared, and none behind it.
fn fill_offers<S: SharingRule>(
    rule: &S,
    offers: &mut [Offer],
    side: Side,
    marginal: i32,
    shared: Shared,
)
    requires { shared.tied ≡ tie (rank_of side) (rank_of side marginal) offers.old }
    ensures { offers.new ≡ fill (S.SharingRule.meaning rule.now) (rank_of side) (rank_of side marginal) shared.amount shared.tied 0 offers.old }
{
    let mut passed: u32 = 0;
    for offer in offers.iter_mut() {
        let place = place_of(side, marginal, offer.block.bid.price);
        let (matched, next) = part(rule, place, offer.block.bid.volume, shared, passed);
        offer.block.matched = matched;
        passed = next;
    }
}

// Matches nothing.
fn clear_offers(offers: &mut [Offer])
    ensures { offers.new ≡ nothing offers.old }
{
    for offer in offers.iter_mut() {
        offer.block.matched = 0;
    }
}

// What is matched of a side with `first` tenths at the price `limit` ahead of its blocks, where `amount` tenths are matched in all and
// the last of them costs `marginal`.
pub(crate) fn match_offers<S: SharingRule>(
    rule: &S,
    offers: &mut [Offer],
    side: Side,
    first: u32,
    limit: i32,
    amount: u32,
    marginal: i32,
)
    requires side { Ready (rank_of side) offers.old }
    requires sorted { AllByRecursion (λ o. rank_of side limit ≤ℤ rank_of side (price_of o)) offers.old }
    requires placed { first ≤ amount }
    requires reached { amount ≤ length (behind first limit offers.old) }
    requires last { 1 ≤ amount → marginal ≡ nth_price (behind first limit offers.old) amount }
    ensures { offers.new ≡ match_side (S.SharingRule.meaning rule.now) (rank_of side) first limit amount offers.old }
{
    if amount == 0 {
        clear_offers(offers);
        return;
    }
    let (ahead, tied) = standing(offers, side, marginal);
    let shared = Shared {
        amount: amount - (first + ahead),
        tied,
    };
    fill_offers(rule, offers, side, marginal, shared);
}
