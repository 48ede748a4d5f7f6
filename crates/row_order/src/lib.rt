// Comparing rows by their keys: by their t-values, then by p, then by q. What the search of pages ranks rows by. Customers call nothing here.
#![tactic(auto)]

ghost use Rattle.std.specs.Prelude.{◌≡◌, ◌<◌, ◌≤◌, length, drop};
ghost use Rattle.definitions.specs.Pages.{before, after, above};
ghost use Rattle.definitions.specs.Ranking.{ranks_from, row_key};

use row_places::RANKS_FROM;

// Whether the t-values of one row stand before those of another; both may be the fronts of rows.
pub fn ranks_before(a: &[u32], b: &[u32]) -> bool
    requires { (ranks_from ≤ length a.now) × (ranks_from ≤ length b.now) }
    ensures { result ≡ before (drop ranks_from a.now) (drop ranks_from b.now) }
{
    a[RANKS_FROM..] < b[RANKS_FROM..]
}

// Whether one row stands before another, by their keys: by their t-values, and where these are the same by p and q.
pub fn stands_before(a: &[u32], b: &[u32]) -> bool
    requires { (ranks_from < length a.now) × (length a.now ≡ length b.now) }
    ensures { result ≡ before (row_key a.now) (row_key b.now) }
{
    (&a[RANKS_FROM..], a[0], a[1]) < (&b[RANKS_FROM..], b[0], b[1])
}

// Whether a row stands after another, so that a page after that one may hold it.
pub fn stands_after(row: &[u32], last: &[u32]) -> bool
    requires { (ranks_from < length last.now) × (length last.now ≡ length row.now) }
    ensures { result ≡ above (after (row_key last.now)) (row_key row.now) }
{
    stands_before(last, row)
}
