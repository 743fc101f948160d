// A kind of record: its key, its largest count, its limits and its precedence.
ghost use Rattle.std.specs.Prelude.{◌≡◌, ℕ, true, Decides};
ghost use Rattle.table.specs.Order.{Order, Lawful};

pub trait Record: Copy {
    type Key: Copy;

    // The largest count of a table.
    const MAX: usize;

    ghost MAX: { ℕ };

    // What names a row, when two keys are the same, and which of two rows comes first.
    ghost order: { Order Self Self.Key };

    // What holds of a row within its limits.
    ghost limits: { Self → Type 0 };

    // A number for each key, and what holds of the keys that rows have: different ones have different numbers.
    ghost code: { Self.Key → ℕ };

    ghost coded: { Self.Key → Type 0 };

    fn key(&self) -> Self::Key
        ensures { result ≡ order.named self.now };

    fn key_code(&self) -> u64
        ensures value { result ≡ code (order.named self.now) }
        ensures coded { coded (order.named self.now) };

    fn same_key(a: Self::Key, b: Self::Key) -> bool
        ensures { result ≡ order.same a b };

    // No `Ord`, which has to read every field that `==` reads: a precedence reads some of them.
    fn before(&self, other: &Self) -> bool
        ensures { result ≡ order.precedes self.now other.now };

    fn within_limits(&self) -> bool
        ensures { Decides result (limits self.now) };

    ghost lawful: { Lawful order };

    ghost tells: { (a b : Self.Key) → coded a → coded b → code a ≡ code b → order.same a b ≡ true };
}
