// Sharing rules: how an amount is given out along a tie, the blocks that stand at the marginal price (docs/MARKET.md).
ghost use Rattle.std.specs.Prelude.{◌≡◌, ℕ, ◌≤◌, Decides};
ghost use Rattle.rules.specs.Shares.{Shares, by_precedence, in_proportion};
ghost use Rattle.std.proofs.Common.{rules, arith};
ghost use Rattle.std.proofs.lemmas.Bool.Decides.{nat_tests};
ghost use Rattle.rules.specs.Proportions.{part_none, part_whole, part_rises, part_slowly};

// A rule is asked by `&self`: it stays as it is. The three volumes come one by one, as its laws move one of them and keep the others.
pub trait SharingRule {
    // How much of an amount is given to the front of a tie: from what the rule holds, the amount, the tied volume, and the
    // volume counted from the front.
    ghost meaning: { Self → ℕ → ℕ → ℕ → ℕ };

    fn given(&self, amount: u32, tied: u32, counted: u32) -> u32
        ensures { result ≡ meaning self.now amount tied counted };

    ghost lawful: { (rule : Self) → Shares (meaning rule) };
}

// Whether the amount and the volume counted are both within the tied volume.
fn fits(amount: u32, tied: u32, counted: u32) -> bool
    ensures { Decides result ((amount ≤ tied) × (counted ≤ tied)) }
{
    amount <= tied && counted <= tied
}

// By precedence: the front of the tie is served first.
#[derive(Clone, Copy)]
pub struct ByPrecedence;

impl SharingRule for ByPrecedence {
    ghost meaning = { λ rule amount tied counted. by_precedence amount tied counted };

    ghost lawful = { Prim.search rules };

    fn given(&self, amount: u32, tied: u32, counted: u32) -> u32 {
        if fits(amount, tied, counted) {
            amount.min(counted)
        } else {
            0
        }
    }
}

// In proportion: each part of the tie is served by its volume, in whole tenths.
#[derive(Clone, Copy)]
pub struct InProportion;

impl SharingRule for InProportion {
    ghost meaning = { λ rule amount tied counted. in_proportion amount tied counted };

    ghost lawful = { λ rule.
        record {
          none = λ l s h. Prim.grind (arith, nat_tests, part_none l s);
          whole = λ l s h. Prim.grind (arith, nat_tests, part_whole l s h);
          rises = λ l s c d h k u. Prim.grind (arith, nat_tests, part_rises l s c d k);
          slowly = λ l s c d h k u. Prim.grind (arith, nat_tests, part_slowly l s c d h k u);
          outside = λ l s c n. Prim.grind (arith, nat_tests);
        } };

    fn given(&self, amount: u32, tied: u32, counted: u32) -> u32 {
        if tied > 0 && fits(amount, tied, counted) {
            (amount as u64 * counted as u64 / tied as u64) as u32
        } else {
            0
        }
    }
}
