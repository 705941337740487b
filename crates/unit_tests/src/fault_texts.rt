//! The words of faults, which tests and callers print and the program does not.

use crate::rows::expect_list;
use assertion_syntax::NameFault;
use drawing_tree::ExprFault;
use std::fmt::Display;
use std::process::Abort;
use vector_names::VectorFault;

/// One row: a fault, and its words.
fn reads<T: Display + Drop>(rt: &(impl Abort + AllocGlobal), fault: T, words: &str) {
    let text = format!(in rt.alloc(); "{fault}").expect(rt, words);
    expect_list(rt, words, text.as_bytes(), words.as_bytes());
}

#[test]
fn each_fault_has_its_words(rt: HostRuntime) {
    reads(&rt, ExprFault::Unknown, "a parameter has no value");
    reads(&rt, ExprFault::Overflow, "a result leaves 64 signed bits");
    reads(&rt, ExprFault::ZeroDivisor, "a divisor is zero");
    let range = "a bit number is out of range, or too many come";
    reads(&rt, VectorFault::BadRange, range);
    reads(&rt, VectorFault::Width, "a connection has the wrong width");
    reads(&rt, VectorFault::NoMemory, "memory ran out");
    let interval = "an interval does not fit the units of the period";
    reads(&rt, NameFault::BadName, interval);
    reads(
        &rt,
        NameFault::EdgesOverlap,
        "the regions of two edges overlap",
    );
}
