// Why a table is refused, and why an edit of it is.

#[derive(Clone, Copy, PartialEq, Eq)]
pub enum Fault {
    // The slice has more places than the largest count, or fewer than are counted.
    Size,
    // A counted row is outside its limits or out of order, or a key stands twice.
    Disturbed,
}

#[derive(Clone, Copy, PartialEq, Eq)]
pub enum Refusal {
    // A counted row has the key.
    Taken,
    // There is no free place.
    Full,
}
