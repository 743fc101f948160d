// The income and the residue of an exchange, in cents.
#[derive(Clone, Copy, PartialEq, Eq, Default)]
pub struct Totals {
    pub income: i64,
    pub residue: i64,
}
