// The places of the block tables, as they are lent to a call: each zone and side has its own. The four stand side by side, and not in
// two `ZonePlaces`: a caller learns what its own slices hold afterwards from a struct that holds them itself.
use crate::purchase::Purchase;
use crate::sale::Sale;

#[derive(Drop)]
pub struct ZonePlaces<'a> {
    pub sales: &'a mut [Sale],
    pub purchases: &'a mut [Purchase],
}

#[derive(Drop)]
pub struct BlockPlaces<'a> {
    pub sales_one: &'a mut [Sale],
    pub purchases_one: &'a mut [Purchase],
    pub sales_two: &'a mut [Sale],
    pub purchases_two: &'a mut [Purchase],
}
