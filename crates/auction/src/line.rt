// The line between the zones: whether it carries a flow.
ghost use Rattle.std.specs.Prelude.{◌≡◌};
ghost use Rattle.auction.specs.Clearing.{line};

use market::capacities::Capacities;

#[derive(Clone, Copy)]
pub enum Line {
    // It carries the flow.
    Enough,
    // It is full from zone 1 to zone 2.
    There,
    // It is full from zone 2 to zone 1.
    Back,
}

// How a line of these capacities stands to a flow.
pub fn line_of(capacities: Capacities, flow: i64) -> Line
    ensures { result ≡ line capacities.forward capacities.backward flow }
{
    let (forward, backward) = (capacities.forward(), capacities.backward());
    if flow > forward as i64 {
        Line::There
    } else if flow < -(backward as i64) {
        Line::Back
    } else {
        Line::Enough
    }
}
