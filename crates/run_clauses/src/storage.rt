//! What registers and latches give: by their pins at one tick, and by their own output a tick
//! before.

ghost use Rattle.std.specs.Prelude.{◌≡◌, OnOk, true};
ghost use Rattle.run_clauses.specs.Forms.{forced_said};
ghost use Rattle.run_clauses.specs.Meaning.{Adds, IsKept, IsLatch, IsRegister, IsSetOrReset, IsStoredBy, IsTaken};

use crate::driven::Driven;
use crate::fact::{Fact, Said};
use crate::formula::Formula;
use scald_base::NoMemory;

/// The output of storage at a tick, if its delay is one number.
#[derive(Clone, Copy, Debug)]
pub struct Storage {
    pub net: Driven,
    /// That the delay is another.
    pub unless: Said,
    /// The tick at which the pins count.
    pub tick: u32,
    /// There are a set, pin 2, and a reset, pin 3.
    pub forced: bool,
}

impl Storage {
    fn pin(self, pin: u32, tick: u32) -> Fact
        ensures { result ≡ Fact.Pin self.net.instance pin tick }
    {
        Fact::Pin {
            instance: self.net.instance,
            pin,
            tick,
        }
    }

    /// That something sets or resets the output, or that cannot be.
    fn is_set(self) -> Said
        ensures { result ≡ forced_said self 2 }
    {
        if self.forced {
            self.pin(2, self.tick).is()
        } else {
            self.net.is_past()
        }
    }

    fn is_reset(self) -> Said
        ensures { result ≡ forced_said self 3 }
    {
        if self.forced {
            self.pin(3, self.tick).is()
        } else {
            self.net.is_past()
        }
    }
}

/// Where set and reset are 0 and something else holds too: that the output is the bit of the input.
fn add_taken(formula: &mut Formula, storage: Storage, one: Said, two: Said) -> Result<(), NoMemory>
    ensures { OnOk result (Adds (IsTaken storage one two) formula.old formula.new) }
{
    add_taken_bit(formula, storage, one, two, true)?;
    add_taken_bit(formula, storage, one, two, false)
}

/// The same of one bit of the input.
fn add_taken_bit(
    formula: &mut Formula,
    storage: Storage,
    one: Said,
    two: Said,
    bit: bool,
) -> Result<(), NoMemory>
    ensures { OnOk result (Adds (IsTaken storage one two) formula.old formula.new) }
{
    formula.push(&[
        storage.net.is_past(),
        storage.unless,
        storage.is_set(),
        storage.is_reset(),
        one,
        two,
        storage.net.out(!bit),
        storage.pin(1, storage.tick).at(bit),
    ])
}

/// Where set and reset are 0 and something else holds too: that the output is as it was.
fn add_kept(formula: &mut Formula, storage: Storage, one: Said) -> Result<(), NoMemory>
    ensures { OnOk result (Adds (IsKept storage one) formula.old formula.new) }
{
    add_kept_bit(formula, storage, one, true)?;
    add_kept_bit(formula, storage, one, false)
}

/// The same of one bit of the output.
fn add_kept_bit(
    formula: &mut Formula,
    storage: Storage,
    one: Said,
    bit: bool,
) -> Result<(), NoMemory>
    ensures { OnOk result (Adds (IsKept storage one) formula.old formula.new) }
{
    formula.push(&[
        storage.net.is_past(),
        storage.unless,
        storage.is_set(),
        storage.is_reset(),
        one,
        storage.net.out(!bit),
        storage.net.old(bit),
    ])
}

/// That set alone gives 1, and reset alone 0.
fn add_forced(formula: &mut Formula, storage: Storage) -> Result<(), NoMemory>
    ensures { OnOk result (Adds (IsSetOrReset storage) formula.old formula.new) }
{
    if storage.forced {
        return add_set_and_reset(formula, storage);
    }
    Ok(())
}

/// The same if there are a set and a reset.
fn add_set_and_reset(formula: &mut Formula, storage: Storage) -> Result<(), NoMemory>
    requires { storage.forced ≡ true }
    ensures { OnOk result (Adds (IsSetOrReset storage) formula.old formula.new) }
{
    let set = storage.pin(2, storage.tick);
    let reset = storage.pin(3, storage.tick);
    let (past, unless) = (storage.net.is_past(), storage.unless);
    formula.push(&[
        past,
        unless,
        set.is_not(),
        reset.is(),
        storage.net.out(true),
    ])?;
    formula.push(&[
        past,
        unless,
        set.is(),
        reset.is_not(),
        storage.net.out(false),
    ])
}

/// What a register gives: its input if its clock rises, else what it gave.
fn add_register(formula: &mut Formula, storage: Storage) -> Result<(), NoMemory>
    ensures { OnOk result (Adds (IsRegister storage) formula.old formula.new) }
{
    let before = storage.pin(0, storage.tick.saturating_sub(1));
    let after = storage.pin(0, storage.tick);
    add_taken(formula, storage, before.is(), after.is_not())?;
    add_kept(formula, storage, before.is_not())?;
    add_kept(formula, storage, after.is())?;
    add_forced(formula, storage)
}

/// What a latch gives: its input if it is enabled, else what it gave.
fn add_latch(formula: &mut Formula, storage: Storage) -> Result<(), NoMemory>
    ensures { OnOk result (Adds (IsLatch storage) formula.old formula.new) }
{
    let enable = storage.pin(0, storage.tick);
    add_taken(formula, storage, enable.is_not(), enable.is_not())?;
    add_kept(formula, storage, enable.is())?;
    add_forced(formula, storage)
}

/// What a latch or a register gives.
pub fn add_stored(formula: &mut Formula, storage: Storage, is_latch: bool) -> Result<(), NoMemory>
    ensures { OnOk result (Adds (IsStoredBy is_latch storage) formula.old formula.new) }
{
    if is_latch {
        add_latch(formula, storage)
    } else {
        add_register(formula, storage)
    }
}
