//! The tables of two to four values.

ghost use Rattle.step_values.specs.Image.{and_of, latch_of, latch_rs_of, mux2_of, or_of, reg_rs_of, xor_of};
ghost use Rattle.step_values.specs.Table.{IsTable2, IsTable3, IsTable4};

use crate::gate_image::mux2_value;
use crate::storage_image::{latch_rs_value, latch_value, reg_rs_value};
use crate::table::{Table, value_at};
use crate::value::Value;

/// A table of so many entries, each found by its index.
macro_rules! table {
    ($entries:literal, $index:ident => $value:expr) => {{
        let mut entries = [Value::U; $entries];
        for $index in 0..$entries {
            entries[$index] = $value;
        }
        Table { entries }
    }};
}

// The values as tables show them: by the letter that the report has for each, but `O` for 0 and `I`
// for 1.
const O: Value = Value::Zero;

const I: Value = Value::One;

const S: Value = Value::S;

const C: Value = Value::C;

const R: Value = Value::R;

const F: Value = Value::F;

const U: Value = Value::U;

/// A table that is written out, row by row: those of gates are wanted too often to be worked out.
macro_rules! written {
    ($($($entry:ident)*;)*) => {
        Table { entries: [$($($entry,)*)*] }
    };
}

/// A table of two values.
macro_rules! table2 {
    ($value:ident) => {
        table!(49, index => $value(value_at(index / 7), value_at(index % 7)))
    };
}

/// A table of three values.
macro_rules! table3 {
    ($value:ident) => {
        table!(343, index => $value(
            value_at(index / 49),
            value_at(index / 7 % 7),
            value_at(index % 7)
        ))
    };
}

/// A table of four values.
macro_rules! table4 {
    ($value:ident) => {
        table!(2401, index => $value(
            value_at(index / 343),
            value_at(index / 49 % 7),
            value_at(index / 7 % 7),
            value_at(index % 7)
        ))
    };
}

/// AND.
pub fn and2() -> Table<49>
    ensures { IsTable2 and_of result.entries }
{
    written!(
        O O O O O O O;
        O I S C R F U;
        O S S C R F U;
        O C C C C C U;
        O R R C R C U;
        O F F C C F U;
        O U U U U U U;
    )
}

/// OR.
pub fn or2() -> Table<49>
    ensures { IsTable2 or_of result.entries }
{
    written!(
        O I S C R F U;
        I I I I I I I;
        S I S C R F U;
        C I C C C C U;
        R I R C R C U;
        F I F C C F U;
        U I U U U U U;
    )
}

/// XOR.
pub fn xor2() -> Table<49>
    ensures { IsTable2 xor_of result.entries }
{
    written!(
        O I S C R F U;
        I O S C F R U;
        S S S C C C U;
        C C C C C C U;
        R F C C C C U;
        F R C C C C U;
        U U U U U U U;
    )
}

/// The input that a select names, by the select, input 0 and input 1.
pub fn mux2() -> Table<343>
    ensures { IsTable3 mux2_of result.entries }
{
    table3!(mux2_value)
}

/// A latch, by its enable and its input.
pub fn latch() -> Table<49>
    ensures { IsTable2 latch_of result.entries }
{
    table2!(latch_value)
}

/// A register with set and reset, by its clock, set and reset.
pub fn reg_rs() -> Table<343>
    ensures { IsTable3 reg_rs_of result.entries }
{
    table3!(reg_rs_value)
}

/// A latch with set and reset, by its enable, its input, set and reset.
pub fn latch_rs() -> Table<2401>
    ensures { IsTable4 latch_rs_of result.entries }
{
    table4!(latch_rs_value)
}
