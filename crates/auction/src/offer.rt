// Offers: the blocks of one side of the market, each with its zone.
use market::block::Block;
use market::zone::Zone;

#[derive(Clone, Copy)]
pub struct Offer {
    pub zone: Zone,
    pub block: Block,
}

// What fills a place that no block has taken yet.
pub(crate) fn no_offer() -> Offer {
    Offer {
        zone: Zone::One,
        block: Block::default(),
    }
}
