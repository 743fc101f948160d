// The worked results that need no call file, as data: the cases that the definitions are proved to give, by the same names.
use auction::engine::Clearing;
use market::zone::Side;

// A block of volume `volume` at `price`, of which `matched` is matched. It is entered by the number of its zone.
#[derive(Clone, Copy)]
pub struct Lot {
    pub zone: u32,
    pub side: Side,
    pub unit: u32,
    pub price: i32,
    pub volume: u32,
    pub matched: u32,
}

// Blocks, capacities, and what clearing them gives.
#[derive(Clone, Copy)]
pub struct Case {
    pub name: &'static str,
    pub forward: u32,
    pub backward: u32,
    pub clearing: Clearing,
    pub lots: &'static [Lot],
}

const EMPTY_MARKET: &[Lot] = &[];

const MEETING_PRICE: &[Lot] = &[
    Lot {
        zone: 1,
        side: Side::Sale,
        unit: 1,
        price: 3000,
        volume: 10,
        matched: 10,
    },
    Lot {
        zone: 1,
        side: Side::Purchase,
        unit: 1,
        price: 3000,
        volume: 10,
        matched: 10,
    },
];

const ONE_CENT_APART: &[Lot] = &[
    Lot {
        zone: 1,
        side: Side::Sale,
        unit: 1,
        price: 3001,
        volume: 10,
        matched: 0,
    },
    Lot {
        zone: 1,
        side: Side::Purchase,
        unit: 1,
        price: 3000,
        volume: 10,
        matched: 0,
    },
];

const UNCONGESTED: &[Lot] = &[
    Lot {
        zone: 1,
        side: Side::Sale,
        unit: 1,
        price: 2000,
        volume: 100,
        matched: 100,
    },
    Lot {
        zone: 1,
        side: Side::Sale,
        unit: 2,
        price: 4000,
        volume: 80,
        matched: 60,
    },
    Lot {
        zone: 1,
        side: Side::Purchase,
        unit: 1,
        price: 6000,
        volume: 60,
        matched: 60,
    },
    Lot {
        zone: 2,
        side: Side::Sale,
        unit: 1,
        price: 5000,
        volume: 50,
        matched: 0,
    },
    Lot {
        zone: 2,
        side: Side::Purchase,
        unit: 1,
        price: 7000,
        volume: 100,
        matched: 100,
    },
];

const ONE_TENTH_SHORT: &[Lot] = &[
    Lot {
        zone: 1,
        side: Side::Sale,
        unit: 1,
        price: 2000,
        volume: 100,
        matched: 100,
    },
    Lot {
        zone: 1,
        side: Side::Sale,
        unit: 2,
        price: 4000,
        volume: 80,
        matched: 59,
    },
    Lot {
        zone: 1,
        side: Side::Purchase,
        unit: 1,
        price: 6000,
        volume: 60,
        matched: 60,
    },
    Lot {
        zone: 2,
        side: Side::Sale,
        unit: 1,
        price: 5000,
        volume: 50,
        matched: 1,
    },
    Lot {
        zone: 2,
        side: Side::Purchase,
        unit: 1,
        price: 7000,
        volume: 100,
        matched: 100,
    },
];

const CONGESTED: &[Lot] = &[
    Lot {
        zone: 1,
        side: Side::Sale,
        unit: 1,
        price: 2000,
        volume: 100,
        matched: 90,
    },
    Lot {
        zone: 1,
        side: Side::Sale,
        unit: 2,
        price: 4000,
        volume: 80,
        matched: 0,
    },
    Lot {
        zone: 1,
        side: Side::Purchase,
        unit: 1,
        price: 6000,
        volume: 60,
        matched: 60,
    },
    Lot {
        zone: 2,
        side: Side::Sale,
        unit: 1,
        price: 5000,
        volume: 50,
        matched: 50,
    },
    Lot {
        zone: 2,
        side: Side::Purchase,
        unit: 1,
        price: 7000,
        volume: 100,
        matched: 80,
    },
];

const SHARED_TIE: &[Lot] = &[
    Lot {
        zone: 1,
        side: Side::Sale,
        unit: 1,
        price: 10,
        volume: 30,
        matched: 15,
    },
    Lot {
        zone: 1,
        side: Side::Sale,
        unit: 2,
        price: 10,
        volume: 30,
        matched: 15,
    },
    Lot {
        zone: 1,
        side: Side::Sale,
        unit: 3,
        price: 10,
        volume: 40,
        matched: 20,
    },
    Lot {
        zone: 1,
        side: Side::Purchase,
        unit: 1,
        price: 20,
        volume: 50,
        matched: 50,
    },
];

const TIE_IN_PRECEDENCE: &[Lot] = &[
    Lot {
        zone: 1,
        side: Side::Sale,
        unit: 1,
        price: 10,
        volume: 30,
        matched: 30,
    },
    Lot {
        zone: 1,
        side: Side::Sale,
        unit: 2,
        price: 10,
        volume: 30,
        matched: 20,
    },
    Lot {
        zone: 1,
        side: Side::Sale,
        unit: 3,
        price: 10,
        volume: 40,
        matched: 0,
    },
    Lot {
        zone: 1,
        side: Side::Purchase,
        unit: 1,
        price: 20,
        volume: 50,
        matched: 50,
    },
];

const TIE_WITH_REMAINDER: &[Lot] = &[
    Lot {
        zone: 1,
        side: Side::Sale,
        unit: 1,
        price: 10,
        volume: 1,
        matched: 0,
    },
    Lot {
        zone: 1,
        side: Side::Sale,
        unit: 2,
        price: 10,
        volume: 1,
        matched: 1,
    },
    Lot {
        zone: 1,
        side: Side::Sale,
        unit: 3,
        price: 10,
        volume: 1,
        matched: 1,
    },
    Lot {
        zone: 1,
        side: Side::Purchase,
        unit: 1,
        price: 20,
        volume: 2,
        matched: 2,
    },
];

const TIE_BEHIND_TENTHS: &[Lot] = &[
    Lot {
        zone: 1,
        side: Side::Sale,
        unit: 1,
        price: 10,
        volume: 4,
        matched: 4,
    },
    Lot {
        zone: 1,
        side: Side::Sale,
        unit: 2,
        price: 90,
        volume: 9,
        matched: 0,
    },
    Lot {
        zone: 1,
        side: Side::Purchase,
        unit: 1,
        price: 50,
        volume: 3,
        matched: 1,
    },
    Lot {
        zone: 1,
        side: Side::Purchase,
        unit: 2,
        price: 50,
        volume: 3,
        matched: 1,
    },
    Lot {
        zone: 2,
        side: Side::Purchase,
        unit: 1,
        price: 100,
        volume: 5,
        matched: 2,
    },
];

const PURCHASE_AT_LIMIT: &[Lot] = &[
    Lot {
        zone: 1,
        side: Side::Sale,
        unit: 1,
        price: 10,
        volume: 2,
        matched: 2,
    },
    Lot {
        zone: 1,
        side: Side::Sale,
        unit: 2,
        price: 300000,
        volume: 9,
        matched: 3,
    },
    Lot {
        zone: 1,
        side: Side::Purchase,
        unit: 1,
        price: 300000,
        volume: 3,
        matched: 3,
    },
    Lot {
        zone: 2,
        side: Side::Purchase,
        unit: 1,
        price: 300000,
        volume: 1,
        matched: 0,
    },
    Lot {
        zone: 2,
        side: Side::Purchase,
        unit: 2,
        price: 300000,
        volume: 9,
        matched: 2,
    },
];

const SALE_AT_LIMIT: &[Lot] = &[
    Lot {
        zone: 1,
        side: Side::Sale,
        unit: 1,
        price: -50000,
        volume: 5,
        matched: 5,
    },
    Lot {
        zone: 1,
        side: Side::Sale,
        unit: 2,
        price: 80,
        volume: 3,
        matched: 2,
    },
    Lot {
        zone: 1,
        side: Side::Purchase,
        unit: 1,
        price: 100,
        volume: 9,
        matched: 9,
    },
    Lot {
        zone: 2,
        side: Side::Sale,
        unit: 1,
        price: -50000,
        volume: 9,
        matched: 3,
    },
    Lot {
        zone: 2,
        side: Side::Purchase,
        unit: 1,
        price: 50,
        volume: 1,
        matched: 1,
    },
];

const TIE_ACROSS_ZONES: &[Lot] = &[
    Lot {
        zone: 1,
        side: Side::Sale,
        unit: 1,
        price: 10,
        volume: 3,
        matched: 2,
    },
    Lot {
        zone: 1,
        side: Side::Purchase,
        unit: 1,
        price: 20,
        volume: 1,
        matched: 1,
    },
    Lot {
        zone: 2,
        side: Side::Sale,
        unit: 1,
        price: 10,
        volume: 3,
        matched: 2,
    },
    Lot {
        zone: 2,
        side: Side::Purchase,
        unit: 1,
        price: 20,
        volume: 3,
        matched: 3,
    },
];

const TIE_ACROSS_ZONES_IN_PRECEDENCE: &[Lot] = &[
    Lot {
        zone: 1,
        side: Side::Sale,
        unit: 1,
        price: 10,
        volume: 3,
        matched: 3,
    },
    Lot {
        zone: 1,
        side: Side::Purchase,
        unit: 1,
        price: 20,
        volume: 1,
        matched: 1,
    },
    Lot {
        zone: 2,
        side: Side::Sale,
        unit: 1,
        price: 10,
        volume: 3,
        matched: 1,
    },
    Lot {
        zone: 2,
        side: Side::Purchase,
        unit: 1,
        price: 20,
        volume: 3,
        matched: 3,
    },
];

const NO_LINE: &[Lot] = &[
    Lot {
        zone: 1,
        side: Side::Sale,
        unit: 1,
        price: 10,
        volume: 3,
        matched: 1,
    },
    Lot {
        zone: 1,
        side: Side::Purchase,
        unit: 1,
        price: 20,
        volume: 1,
        matched: 1,
    },
    Lot {
        zone: 2,
        side: Side::Sale,
        unit: 1,
        price: 5,
        volume: 3,
        matched: 3,
    },
    Lot {
        zone: 2,
        side: Side::Purchase,
        unit: 1,
        price: 40,
        volume: 4,
        matched: 3,
    },
];

const ONE_SIDE_EMPTY: &[Lot] = &[
    Lot {
        zone: 1,
        side: Side::Sale,
        unit: 1,
        price: 10,
        volume: 3,
        matched: 1,
    },
    Lot {
        zone: 2,
        side: Side::Purchase,
        unit: 1,
        price: 40,
        volume: 2,
        matched: 1,
    },
];

const FLOW_BACK: &[Lot] = &[
    Lot {
        zone: 1,
        side: Side::Sale,
        unit: 1,
        price: 90,
        volume: 5,
        matched: 4,
    },
    Lot {
        zone: 1,
        side: Side::Purchase,
        unit: 1,
        price: 100,
        volume: 6,
        matched: 6,
    },
    Lot {
        zone: 2,
        side: Side::Sale,
        unit: 1,
        price: 10,
        volume: 4,
        matched: 3,
    },
    Lot {
        zone: 2,
        side: Side::Sale,
        unit: 2,
        price: 95,
        volume: 2,
        matched: 0,
    },
    Lot {
        zone: 2,
        side: Side::Purchase,
        unit: 1,
        price: 50,
        volume: 1,
        matched: 1,
    },
];

const APART_IN_BOTH_ZONES: &[Lot] = &[
    Lot {
        zone: 1,
        side: Side::Sale,
        unit: 1,
        price: 30,
        volume: 3,
        matched: 0,
    },
    Lot {
        zone: 1,
        side: Side::Purchase,
        unit: 1,
        price: 20,
        volume: 1,
        matched: 0,
    },
    Lot {
        zone: 2,
        side: Side::Sale,
        unit: 1,
        price: 25,
        volume: 3,
        matched: 0,
    },
    Lot {
        zone: 2,
        side: Side::Purchase,
        unit: 1,
        price: 10,
        volume: 4,
        matched: 0,
    },
];

// By the low end and by precedence.
pub static BY_PRECEDENCE_CASES: [Case; 11] = [
    Case {
        name: "empty market",
        forward: 0,
        backward: 0,
        clearing: Clearing {
            price_one: -50000,
            price_two: -50000,
            flow: 0,
            surplus: 0,
        },
        lots: EMPTY_MARKET,
    },
    Case {
        name: "meeting price",
        forward: 0,
        backward: 0,
        clearing: Clearing {
            price_one: 3000,
            price_two: 3000,
            flow: 0,
            surplus: 0,
        },
        lots: MEETING_PRICE,
    },
    Case {
        name: "one cent apart",
        forward: 0,
        backward: 0,
        clearing: Clearing {
            price_one: 3000,
            price_two: 3000,
            flow: 0,
            surplus: 0,
        },
        lots: ONE_CENT_APART,
    },
    Case {
        name: "uncongested",
        forward: 100,
        backward: 0,
        clearing: Clearing {
            price_one: 4000,
            price_two: 4000,
            flow: 100,
            surplus: 620000,
        },
        lots: UNCONGESTED,
    },
    Case {
        name: "one tenth short",
        forward: 99,
        backward: 0,
        clearing: Clearing {
            price_one: 4000,
            price_two: 5000,
            flow: 99,
            surplus: 619000,
        },
        lots: ONE_TENTH_SHORT,
    },
    Case {
        name: "congested",
        forward: 30,
        backward: 0,
        clearing: Clearing {
            price_one: 2000,
            price_two: 7000,
            flow: 30,
            surplus: 490000,
        },
        lots: CONGESTED,
    },
    Case {
        name: "tie in precedence",
        forward: 0,
        backward: 0,
        clearing: Clearing {
            price_one: 10,
            price_two: 10,
            flow: 0,
            surplus: 500,
        },
        lots: TIE_IN_PRECEDENCE,
    },
    Case {
        name: "tie across zones in precedence",
        forward: 9,
        backward: 9,
        clearing: Clearing {
            price_one: 10,
            price_two: 10,
            flow: 2,
            surplus: 40,
        },
        lots: TIE_ACROSS_ZONES_IN_PRECEDENCE,
    },
    Case {
        name: "no line",
        forward: 0,
        backward: 0,
        clearing: Clearing {
            price_one: 10,
            price_two: 40,
            flow: 0,
            surplus: 115,
        },
        lots: NO_LINE,
    },
    Case {
        name: "one side empty",
        forward: 1,
        backward: 0,
        clearing: Clearing {
            price_one: 10,
            price_two: 40,
            flow: 1,
            surplus: 30,
        },
        lots: ONE_SIDE_EMPTY,
    },
    Case {
        name: "flow back",
        forward: 0,
        backward: 2,
        clearing: Clearing {
            price_one: 90,
            price_two: 10,
            flow: -2,
            surplus: 260,
        },
        lots: FLOW_BACK,
    },
];

// By the low end and in proportion.
pub static IN_PROPORTION_CASES: [Case; 6] = [
    Case {
        name: "shared tie",
        forward: 0,
        backward: 0,
        clearing: Clearing {
            price_one: 10,
            price_two: 10,
            flow: 0,
            surplus: 500,
        },
        lots: SHARED_TIE,
    },
    Case {
        name: "tie with remainder",
        forward: 0,
        backward: 0,
        clearing: Clearing {
            price_one: 10,
            price_two: 10,
            flow: 0,
            surplus: 20,
        },
        lots: TIE_WITH_REMAINDER,
    },
    Case {
        name: "tie behind tenths",
        forward: 2,
        backward: 0,
        clearing: Clearing {
            price_one: 50,
            price_two: 100,
            flow: 2,
            surplus: 260,
        },
        lots: TIE_BEHIND_TENTHS,
    },
    Case {
        name: "purchase at limit",
        forward: 2,
        backward: 0,
        clearing: Clearing {
            price_one: 300000,
            price_two: 300000,
            flow: 2,
            surplus: 599980,
        },
        lots: PURCHASE_AT_LIMIT,
    },
    Case {
        name: "sale at limit",
        forward: 0,
        backward: 2,
        clearing: Clearing {
            price_one: 80,
            price_two: -50000,
            flow: -2,
            surplus: 400790,
        },
        lots: SALE_AT_LIMIT,
    },
    Case {
        name: "tie across zones",
        forward: 9,
        backward: 9,
        clearing: Clearing {
            price_one: 10,
            price_two: 10,
            flow: 1,
            surplus: 40,
        },
        lots: TIE_ACROSS_ZONES,
    },
];

// By the midpoint and by precedence.
pub static AT_MIDPOINT_CASES: [Case; 1] = [Case {
    name: "apart in both zones",
    forward: 5,
    backward: 5,
    clearing: Clearing {
        price_one: 22,
        price_two: 22,
        flow: 0,
        surplus: 0,
    },
    lots: APART_IN_BOTH_ZONES,
}];
