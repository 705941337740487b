//! How a row is judged: one that fails ends its test, and prints its name, what came and what was
//! wanted.
//!
//! The prover goes through these functions once. An `assert_eq!` in their place is proved anew
//! wherever it stands.

use std::fmt::Debug;
use std::process::Abort;

/// What came is what was wanted.
pub fn expect_eq<T: PartialEq + Debug>(rt: &impl Abort, name: &str, came: &T, want: &T) {
    if *came != *want {
        rt.panic(format_args!("{name}: {came:?}, not {want:?}"))
    }
}

/// The items that came are those that were wanted.
pub fn expect_list<T: PartialEq + Debug>(rt: &impl Abort, name: &str, came: &[T], want: &[T]) {
    if *came != *want {
        rt.panic(format_args!("{name}: {came:?}, not {want:?}"))
    }
}

/// What came of these arguments is what was wanted.
pub fn expect_of<A: Debug, T: PartialEq + Debug>(
    rt: &impl Abort,
    name: &str,
    of: &A,
    came: &T,
    want: &T,
) {
    if *came != *want {
        rt.panic(format_args!("{name} of {of:?}: {came:?}, not {want:?}"))
    }
}

/// What the row says of what came is so.
pub fn expect(rt: &impl Abort, name: &str, is_so: bool) {
    if !is_so {
        rt.panic(name)
    }
}
