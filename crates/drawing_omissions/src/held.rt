//! The bits that a case gives, to be looked up by their nets.

ghost use Rattle.std.specs.Prelude.{◌≡◌, ◌<◌, ◌||◌, [], List, IfOk};
ghost use Rattle.std.specs.List.{All};
ghost use Rattle.flat_circuit.specs.declared.case.CaseValue.{CaseValue};
ghost use Rattle.drawing_omissions.specs.Same.{AreHeld, IsOver, are_in, is_held, same_value};

use flat_circuit::CaseValue;
use scald_base::NoMemory;
use std::alloc::Global;

/// The nets that get 0, and those that get 1, each by a mark.
#[derive(Drop)]
pub(crate) struct Held {
    zeros: Vec<bool>,
    ones: Vec<bool>,
}

impl Held {
    /// No bits, of so many nets.
    fn none(alloc: Global, nets: u32) -> Result<Held, NoMemory>
        ensures over { IfOk result (IsOver nets) }
        ensures are { IfOk result (AreHeld []) }
    {
        Ok(Held {
            zeros: vec![in alloc; false; nets as usize]?,
            ones: vec![in alloc; false; nets as usize]?,
        })
    }

    /// A bit more.
    fn add(&mut self, nets: u32, value: CaseValue)
        requires over { IsOver nets self.old }
        requires within { value.net < nets }
        ensures over { IsOver nets self.new }
        ensures added { (v : CaseValue) →
            is_held self.new v ≡ (is_held self.old v || same_value v value) }
    {
        if value.one {
            self.ones[value.net as usize] = true;
        } else {
            self.zeros[value.net as usize] = true;
        }
    }

    /// Those of a case over so many nets.
    pub(crate) fn of(alloc: Global, nets: u32, values: &[CaseValue]) -> Result<Held, NoMemory>
        requires { All (λ v. v.net < nets) values.now }
        ensures { IfOk result (AreHeld values.now) }
    {
        let mut held = Held::none(alloc, nets)?;
        for value in values {
            held.add(nets, *value);
        }
        Ok(held)
    }

    /// Whether the net gets this bit.
    fn has(&self, value: CaseValue) -> bool
        ensures { result ≡ is_held self.now value }
    {
        let mark = if value.one {
            self.ones.get(value.net as usize)
        } else {
            self.zeros.get(value.net as usize)
        };
        match mark {
            Some(mark) => *mark,
            None => false,
        }
    }

    /// Whether all of these bits are given.
    pub(crate) fn has_all(&self, values: &[CaseValue]) -> bool
        ensures { (own : List CaseValue) → AreHeld own self.now → result ≡ are_in own values.now }
    {
        for value in values {
            if !self.has(*value) {
                return false;
            }
        }
        true
    }
}
