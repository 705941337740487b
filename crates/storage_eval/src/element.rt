//! What each kind of storage element makes of one value for each of its listening pins.

ghost use Rattle.step_values.specs.Image.{latch_rs_of, reg_of, reg_rs_of};
ghost use Rattle.step_values.specs.Table.{entry2};
ghost use Rattle.storage_eval.specs.Storage.{of_clock, of_four, of_three, of_two};

use gate_eval::Image;
use step_values::{Table, Value, latch_rs_value, look2, reg, reg_rs_value};

/// A register, by its clock.
#[derive(Drop)]
pub struct Register;

impl Image for Register {
    ghost value_of = { λ element found. of_clock reg_of found };

    fn value(&self, found: &[Value]) -> Value {
        match found {
            [clock] => reg(*clock),
            _ => Value::U,
        }
    }
}

/// An element of two listening pins, by the table of its values.
#[derive(Drop)]
pub struct OfTwo {
    /// The value for each two.
    pub table: Table<49>,
}

impl Image for OfTwo {
    ghost value_of = { λ element found. of_two (entry2 element.table.entries) found };

    fn value(&self, found: &[Value]) -> Value {
        match found {
            [a, b] => look2(&self.table, *a, *b),
            _ => Value::U,
        }
    }
}

/// A register with set and reset, by its clock, set and reset.
#[derive(Drop)]
pub struct RegisterRs;

impl Image for RegisterRs {
    ghost value_of = { λ element found. of_three reg_rs_of found };

    fn value(&self, found: &[Value]) -> Value {
        match found {
            [clock, set, reset] => reg_rs_value(*clock, *set, *reset),
            _ => Value::U,
        }
    }
}

/// A latch with set and reset, by its enable, its input, set and reset. Its table would have an
/// entry for each of 2,401 choices, of which a wave shows few.
#[derive(Drop)]
pub struct LatchRs;

impl Image for LatchRs {
    ghost value_of = { λ element found. of_four latch_rs_of found };

    fn value(&self, found: &[Value]) -> Value {
        match found {
            [enable, input, set, reset] => latch_rs_value(*enable, *input, *set, *reset),
            _ => Value::U,
        }
    }
}
