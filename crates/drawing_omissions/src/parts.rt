//! How much of all combinations cases cover.

ghost use Rattle.std.specs.Prelude.{◌≡◌, ◌<◌, ◌≤◌, length};
ghost use Rattle.drawing_omissions.specs.Same.{firsts_same};
ghost use Rattle.drawing_omissions.specs.Open.{count_at, is_new as spec_is_new, lacks_more as spec_lacks_more, most_entries as spec_most_entries};

use flat_circuit::Case;

/// The most entries of a case.
fn most_entries(cases: &[Case]) -> usize
    ensures { result ≡ spec_most_entries cases.now }
{
    let mut most = 0;
    for case in cases {
        most = most.max(case.len());
    }
    most
}

/// How many cases have so many entries and do not stand before.
fn count_of(cases: &[Case], firsts: &[Option<usize>], entries: usize) -> usize
    requires { firsts.now ≡ firsts_same cases.now }
    ensures is { result ≡ count_at cases.now entries }
    ensures few { result ≤ length cases.now }
{
    let mut count = 0;
    for place in 0..cases.len() {
        if is_new(cases, firsts, entries, place) {
            count += 1;
        }
    }
    count
}

/// Whether a case has so many entries and does not stand before.
fn is_new(cases: &[Case], firsts: &[Option<usize>], entries: usize, place: usize) -> bool
    requires firsts { firsts.now ≡ firsts_same cases.now }
    requires exists { place < length cases.now }
    ensures { result ≡ spec_is_new cases.now entries place }
{
    match firsts[place] {
        None => cases[place].len() == entries,
        Some(_) => false,
    }
}

/// Whether different cases do not add up to all combinations. What is left of these is counted in
/// parts of which a case has one; with each entry more the parts are halved.
pub(crate) fn lacks_more(cases: &[Case], firsts: &[Option<usize>]) -> bool
    requires firsts { firsts.now ≡ firsts_same cases.now }
    requires some { 0 < length cases.now }
    ensures { result ≡ spec_lacks_more cases.now }
{
    let most = most_entries(cases);
    let mut left: usize = 1;
    for entries in 0..most {
        let count = count_of(cases, firsts, entries);
        if left <= count {
            return false;
        }
        let rest = left - count;
        if cases.len() <= rest {
            return true;
        }
        left = rest * 2;
    }
    let last = count_of(cases, firsts, most);
    last < left
}
