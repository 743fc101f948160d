// The loops of a table, over plain slices.
ghost use Rattle.std.specs.Prelude.{◌≡◌, ◌+◌, ◌-◌, ◌<◌, ◌≤◌, false, ◌++◌, map, length, take, drop, Decides};
ghost use Rattle.std.specs.List.{AllByRecursion, insert, remove};
ghost use Rattle.table.specs.Codes.{Changing, Distinct, Sifted, spot};
ghost use Rattle.table.specs.Rows.{Apart, Climbing, Rising, Sound};

use crate::record::Record;

// Puts `row` at the place `p`: the rows from there up to the place `n` move up by one.
#[tactic(auto, using(crate::proofs::Moves::opened))]
pub(crate) fn open_at<R: Copy>(rows: &mut [R], p: usize, n: usize, row: R)
    requires { (p ≤ n) × (n < length rows.old) }
    ensures { rows.new ≡ insert (take n rows.old) p row ++ drop (n + 1) rows.old }
{
    rows.copy_within(p..n, p + 1);
    rows[p] = row;
}

// Takes out the row at the place `p`: the rows above it, below the place `n`, move down by one.
#[tactic(auto, using(crate::proofs::Moves::closed))]
pub(crate) fn close_at<R: Copy>(rows: &mut [R], p: usize, n: usize)
    requires { (p < n) × (n ≤ length rows.old) }
    ensures { rows.new ≡ remove (take n rows.old) p ++ drop (n - 1) rows.old }
{
    rows.copy_within(p + 1..n, p);
}

// Whether each row is within its limits.
fn all_within<R: Record>(rows: &[R]) -> bool
    ensures { Decides result (AllByRecursion R.limits rows.now) }
{
    rows.iter().all(|row| row.within_limits())
}

// Whether each row comes before the next one, and so before every later one.
fn rising<R: Record>(rows: &[R]) -> bool
    ensures { Decides result (Rising R.order rows.now) }
{
    rows.is_sorted_by(|row, next| row.before(next))
}

// Whether no row has the key.
fn lacks<R: Record>(rows: &[R], key: R::Key) -> bool
    ensures { Decides result (AllByRecursion (λ x. R.order.same (R.order.named x) key ≡ false) rows.now) }
{
    rows.iter().all(|row| !R::same_key(row.key(), key))
}

// Whether no key stands twice, by a look at every earlier row: for a few rows, and for more than there is room for codes.
fn keys_apart_slowly<R: Record>(rows: &[R]) -> bool
    ensures { Decides result (Apart R.order rows.now) }
{
    for (i, row) in rows.iter().enumerate() {
        if !lacks(&rows[..i], row.key()) {
            return false;
        }
    }
    true
}

// Writes the codes of the rows' keys, each by its place: after a walk by `iter_mut` in a zip nothing is known of the codes.
fn gather<R: Record>(rows: &[R], codes: &mut [u64])
    requires { length codes.old ≡ length rows.now }
    ensures codes { codes.new ≡ map (λ x. R.code (R.order.named x)) rows.now }
    ensures coded { AllByRecursion (λ x. R.coded (R.order.named x)) rows.now }
{
    for (i, row) in rows.iter().enumerate() {
        codes[i] = row.key_code();
    }
}

// Whether each number differs from the next.
fn neighbours_differ(codes: &[u64]) -> bool
    ensures { Decides result (Changing codes.now) }
{
    codes.is_sorted_by(|code, next| code != next)
}

// Whether no number stands twice: once they are sorted, equal numbers are neighbours.
fn sorted_differ(codes: &mut [u64]) -> bool
    ensures { Decides result (Distinct codes.old) }
{
    codes.sort_unstable();
    neighbours_differ(codes)
}

// A prime: the remainders of different codes seldom meet. The spots are in fixed memory, since there is no heap.
const SPOTS: usize = 8101;

// How many looks through the earlier codes cost no more than a sort.
const LOOKS: usize = 16;

// Below so many codes a sort is quicker than clearing the spots.
const SORTED: usize = 24;

// Where a code is marked.
fn spot_of(code: u64) -> usize
    ensures value { result ≡ spot code }
    ensures below { result < SPOTS }
{
    (code % SPOTS as u64) as usize
}

// Whether no number stands twice, by marking remainders: a code whose remainder is not marked is none of the earlier ones.
// None where too many remainders meet.
fn sifted(codes: &[u64]) -> Option<bool>
    ensures { Sifted codes.now result }
{
    let mut seen = [false; SPOTS];
    let mut looks = 0;
    for (i, code) in codes.iter().enumerate() {
        let spot = spot_of(*code);
        if seen[spot] {
            if looks == LOOKS {
                return None;
            }
            looks += 1;
            if codes[..i].contains(code) {
                return Some(false);
            }
        }
        seen[spot] = true;
    }
    Some(true)
}

// Whether no number stands twice.
fn all_differ(codes: &mut [u64]) -> bool
    ensures { Decides result (Distinct codes.old) }
{
    if codes.len() < SORTED {
        return sorted_differ(codes);
    }
    match sifted(codes) {
        Some(answer) => answer,
        None => sorted_differ(codes),
    }
}

// Whether each row's code is below the next one's, and so below every later one's.
fn codes_climb<R: Record>(rows: &[R]) -> bool
    ensures { Decides result (Climbing (λ x. R.code (R.order.named x)) rows.now) }
{
    rows.is_sorted_by(|row, next| row.key_code() < next.key_code())
}

// The room for codes is fixed memory, since there is no heap.
const ROOM: usize = 512;

// Whether no key stands twice, by the codes of the keys.
fn codes_apart<R: Record>(rows: &[R]) -> bool
    requires { length rows.now ≤ ROOM }
    ensures { Decides result (Apart R.order rows.now) }
{
    let mut room = [0u64; ROOM];
    let codes = &mut room[..rows.len()];
    gather(rows, codes);
    all_differ(codes)
}

// Up to so many rows a look at every earlier row is quicker than clearing the room for codes.
const FEW: usize = 8;

// Whether no key stands twice.
pub(crate) fn keys_apart<R: Record>(rows: &[R]) -> bool
    ensures { Decides result (Apart R.order rows.now) }
{
    if rows.len() <= FEW || rows.len() > ROOM {
        return keys_apart_slowly(rows);
    }
    codes_climb(rows) || codes_apart(rows)
}

// Whether the rows are within their limits and in order, with no key twice.
pub(crate) fn is_sound<R: Record>(rows: &[R]) -> bool
    ensures { Decides result (Sound R.order R.limits rows.now) }
{
    all_within(rows) && rising(rows) && keys_apart(rows)
}
