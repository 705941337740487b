//! What a kind of gate makes of a value for each of its pins. The kinds of two values have a table;
//! that of a multiplexer would have an entry for each of 343 choices, of which waves mostly show
//! few.

ghost use Rattle.step_values.specs.Image.{mux2_of};
ghost use Rattle.step_values.specs.Table.{entry2};
ghost use Rattle.gate_eval.specs.Gates.{from_left, of_eight, of_four, of_two, passed_on};

use crate::meeting::Image;
use step_values::{Table, Value, look2, mux2_value};

/// One pin, passed on.
#[derive(Drop)]
pub struct PassedOn;

impl Image for PassedOn {
    ghost value_of = { λ image found. passed_on found };

    fn value(&self, found: &[Value]) -> Value {
        found.first().copied().unwrap_or(Value::U)
    }
}

/// Two pins at a time, from the left.
#[derive(Drop)]
pub struct FromLeft {
    pub table: Table<49>,
}

impl Image for FromLeft {
    ghost value_of = { λ image found. from_left (entry2 image.table.entries) found };

    fn value(&self, found: &[Value]) -> Value {
        match found.split_first() {
            Some((first, rest)) => rest
                .iter()
                .fold(*first, |made, v| look2(&self.table, made, *v)),
            None => Value::U,
        }
    }
}

/// One of two inputs, after a select.
#[derive(Drop)]
pub struct OfTwo;

impl Image for OfTwo {
    ghost value_of = { λ image found. of_two mux2_of found };

    fn value(&self, found: &[Value]) -> Value {
        match found {
            [s, a, b] => mux2_value(*s, *a, *b),
            _ => Value::U,
        }
    }
}

/// One of four inputs, after two selects, the most significant first.
#[derive(Drop)]
pub struct OfFour;

impl Image for OfFour {
    ghost value_of = { λ image found. of_four mux2_of found };

    fn value(&self, found: &[Value]) -> Value {
        match found {
            [s1, s0, a, b, c, d] => {
                let low = mux2_value(*s0, *a, *b);
                let high = mux2_value(*s0, *c, *d);
                mux2_value(*s1, low, high)
            }
            _ => Value::U,
        }
    }
}

/// One of eight inputs, after three selects, the most significant first.
#[derive(Drop)]
pub struct OfEight;

impl Image for OfEight {
    ghost value_of = { λ image found. of_eight mux2_of found };

    fn value(&self, found: &[Value]) -> Value {
        match found {
            [s2, s1, s0, a, b, c, d, e, f, g, h] => {
                let first = mux2_value(*s0, *a, *b);
                let second = mux2_value(*s0, *c, *d);
                let third = mux2_value(*s0, *e, *f);
                let fourth = mux2_value(*s0, *g, *h);
                let low = mux2_value(*s1, first, second);
                let high = mux2_value(*s1, third, fourth);
                mux2_value(*s2, low, high)
            }
            _ => Value::U,
        }
    }
}
