//! Cases: values that undriven nets keep.

use scald_base::List;

/// The value of one net in a case.
#[derive(Clone, Copy, PartialEq, Eq, Debug)]
pub struct CaseValue {
    pub net: u32,
    pub one: bool,
}

/// One case.
pub type Case = List<CaseValue>;

/// The cases of a drawing, in order.
pub type CaseList = List<Case>;
