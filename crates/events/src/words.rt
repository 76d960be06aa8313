// Words of lent slices: a compare of two runs.
ghost use Rattle.std.specs.Prelude.{◌≡◌, ◌+◌, ◌≤◌, length, take, drop};
ghost use Rattle.laws.specs.Lists.{same_list};
ghost use Rattle.events.specs.Words.{alike};

// Are n words of a from i those of b from k?
pub(crate) fn same_words(a: &[u16], i: usize, b: &[u16], k: usize, n: usize) -> bool
    requires { (i + n ≤ length a.now) × (k + n ≤ length b.now) }
    ensures { result ≡ same_list (take n (drop i a.now)) (take n (drop k b.now)) }
{
    walk(a, i, b, k, n) == n
}

// One walk over both runs (a chain of `zip`, `take_while` and `count` is no plainer): it hands back how many words it walked over before it stopped, at the first difference or behind the last word.
fn walk(a: &[u16], i: usize, b: &[u16], k: usize, n: usize) -> usize
    requires { (i + n ≤ length a.now) × (k + n ≤ length b.now) }
    ensures { result ≡ alike (take n (drop i a.now)) (take n (drop k b.now)) }
{
    let mut walked = 0;
    while walked < n && a[i + walked] == b[k + walked] {
        walked += 1;
    }
    walked
}
