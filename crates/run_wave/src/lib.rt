//! Waves kept as runs: a cell and the number of slots in a row that have it, in place of one cell
//! after another. A wave of a clocked net changes a few times a period of thousands of slots, and
//! what is done with it costs about as much as it has runs.
//!
//! The layers above take `RunWave` wherever they are generic over `CyclicWave`. `specs/Run` says
//! what a list of runs stands for, and which list of runs stands for a wave.
#![tactic(auto)]

mod run;
mod run_list;
mod run_wave;

pub use run::Run;
pub use run_wave::RunWave;
