//! What is tested of single calls and the built program does not show: devices, tokens,
//! expressions, signal names, the bits of vectors, the words of faults and the drawing of a bench;
//! the seven values and their tables, and waves of slots; the classes of nets; and refutations of
//! clauses. Each row has what goes into a call, and what comes of it as it was worked out on paper.
//! What elements, nets and circuits do stands in `checks/calls`.
//!
//! The crate has tests alone, and nothing stands on it. `rows` has how a row is judged, and `cells`
//! the cells of the waves; the other modules have the rows.
#![tactic(auto)]

// how a row is judged
#[cfg(test)]
mod rows;

// devices and texts
#[cfg(test)]
mod bench_text;
#[cfg(test)]
mod bits;
#[cfg(test)]
mod devices;
#[cfg(test)]
mod expressions;
#[cfg(test)]
mod fault_texts;
#[cfg(test)]
mod names;
#[cfg(test)]
mod std_devices;
#[cfg(test)]
mod tokens;

// values and waves
#[cfg(test)]
mod cells;
#[cfg(test)]
mod values;
#[cfg(test)]
mod waves;

// circuits
#[cfg(test)]
mod classes;

// clauses that no assignment makes hold: how they are written and judged, and the rows
#[cfg(test)]
mod clause_families;
#[cfg(test)]
mod clause_forms;
#[cfg(test)]
mod clause_random;
#[cfg(test)]
mod clause_rows;
#[cfg(test)]
mod clause_steps;
#[cfg(test)]
mod clause_verdict;
