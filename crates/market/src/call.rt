// The eight calls of an exchange, as a call file gives them (docs/CALLS.md). Nothing here is within limits yet.
use crate::block::{Bid, BlockKey};
use crate::zone::Side;

#[derive(Clone, Copy)]
pub enum Call {
    Admit {
        agent: u32,
    },
    // The capacities are from zone 1 to zone 2, and from zone 2 to zone 1.
    Begin {
        session: u32,
        forward: u32,
        backward: u32,
    },
    // The zone is the number that is written: where no zone has it, the call is refused, and the line is a form all the same.
    Enter {
        zone: u32,
        side: Side,
        bid: Bid,
    },
    Withdraw {
        zone: u32,
        side: Side,
        key: BlockKey,
    },
    Close,
    Clear,
    Settle,
    Annul,
}
