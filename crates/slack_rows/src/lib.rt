//! By how much each limit of a circuit is met: the least slack of each setup, hold, width, mark and
//! assertion over all cases, where it is least, and the paths that come to it.
//!
//! `specs/Window` says in which ticks data is not to change, and on which side of an edge a change
//! in them counts; `specs/Slack` how many ticks that leaves; `specs/Watch` and `specs/Pulse` what
//! each checker, mark and assertion watches; `specs/Limit` the slack of a limit over all cases,
//! `specs/Rows` which limits there are and in which order they stand, and `specs/Laws` that a
//! limit is broken exactly if there is a fault. `specs/Views`, `specs/Held` and `specs/Arrived` say
//! what the program's own types mean in these words, `specs/Sides` which slacks it has by the
//! arrivals that it knows, `specs/Known` what [`Rows`] knows over some cases, `specs/Shown` which
//! end of a region each path of a slack explains.
//!
//! The layer above makes [`Rows`] of a circuit and adds case after case.
#![tactic(auto)]

// numbers, and what they come from
mod slack;
mod window;

// slacks about windows
mod around;
mod held;
mod launch;
mod sides;
mod two;

// slacks without a region
mod guard;
mod nearest;
mod quiet;
mod ways;

// of each kind of limit
mod assertion;
mod checker;
mod gate;
mod watch;
mod width;

// of all limits, over all cases
mod causes;
mod limits;
mod parameter;
mod rows;
mod subject;
mod table;

// what holds of the definitions
mod laws;

pub use laws::{
    broken_where_touched, edges_break_with_faults, marks_break_with_faults, nets_break_with_faults,
    starred_is_worst, widths_break_with_faults,
};
pub use limits::Parameters;
pub use parameter::{Parameter, Subject, Word};
pub use rows::{Least, Rows};
pub use slack::{By, Finding, Rank, Reason, Slack};
pub use window::Window;
