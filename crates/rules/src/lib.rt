// The rules that an exchange chooses: how a price is taken from a bracket, and how an amount is shared along a tie.
#![tactic(auto)]

pub mod price;
pub mod sharing;

#[cfg(test)]
mod tests {
    use crate::price::*;
    use crate::sharing::*;

    #[test]
    fn midpoint_rounds_down(rt: HostRuntime) {
        assert_eq!(rt; Midpoint.price(-3, 0), -2);
        assert_eq!(rt; LowEnd.price(-3, 0), -3);
    }

    #[test]
    fn three_blocks_share_fifty(rt: HostRuntime) {
        assert_eq!(rt; InProportion.given(50, 100, 30), 15);
        assert_eq!(rt; InProportion.given(50, 100, 60), 30);
        assert_eq!(rt; InProportion.given(50, 100, 100), 50);
        assert_eq!(rt; ByPrecedence.given(50, 100, 30), 30);
        assert_eq!(rt; ByPrecedence.given(50, 100, 60), 50);
        assert_eq!(rt; ByPrecedence.given(50, 100, 100), 50);
    }

    #[test]
    fn three_tenths_share_two(rt: HostRuntime) {
        assert_eq!(rt; InProportion.given(2, 3, 1), 0);
        assert_eq!(rt; InProportion.given(2, 3, 2), 1);
        assert_eq!(rt; InProportion.given(2, 3, 3), 2);
    }
}
