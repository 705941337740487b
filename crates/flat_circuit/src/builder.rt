//! The builder: nets by their names, and instances one after another.

ghost use Rattle.std.specs.Prelude.{◌≡◌, ◌<◌, ◌++◌, length, not, take, false, if◌then◌else◌, IfOk, IfErr, IfSome, IsTrue, OnOk, OnErr};
ghost use Rattle.scald_base.specs.Fitting.{Fits};
ghost use Rattle.flat_circuit.specs.Name.{Name, IsNumber};
ghost use Rattle.flat_circuit.specs.Instances.{InstanceFits};
ghost use Rattle.flat_circuit.specs.Builder.{empty, IsBuilt, GivesNet, IsNetRefusal, after_assertion, after_wire, GivesInstance, IsInstanceRefusal, is_one_too_many, name_of_key, GivesNumber, IsNumberRefusal, is_asserted};

use crate::assertions::{Assertions, is_asserted};
use crate::instance::Instance;
use crate::net_table::{NetName, NetTable};
use crate::text::Text;
use scald_base::{AssertSpec, Delay, Header, List, NoMemory, Place, RefusalKind, Stop};
use std::alloc::Global;
use std::marker::Model;

/// The most nets, and the most bits of elements and of checkers.
const MOST_BITS: usize = 65_536;

/// The most pins of all instances.
const MOST_PINS: usize = 1_048_576;

/// Builds a circuit. Nets get their numbers in the order in which they are first asked for, from 0,
/// and a number stays valid. Instances get theirs in the order in which they are added.
#[derive(Drop)]
pub struct Builder {
    pub(crate) alloc: Global,
    pub(crate) header: Header,
    pub(crate) nets: NetTable,
    pub(crate) assertions: Assertions,
    pub(crate) instances: List<Instance>,
    pub(crate) outputs: u32,
    pub(crate) checkers: u32,
    pub(crate) pins: u32,
    /// The number of the net that was asked for last: the next bit of its vector mostly has the
    /// next number.
    pub(crate) recent: u32,
}

impl Model for Builder {
    ghost use Rattle.flat_circuit.specs.Instances.{AreCounts};
    ghost use Rattle.flat_circuit.specs.Builder.{Built, IsBuilt, built};

    ghost Value = { Built };

    ghost view = { λ b. built b.header b.nets b.assertions b.instances };

    ghost invariant = { λ b. IsBuilt (built b.header b.nets b.assertions b.instances)
        × AreCounts b.instances b.outputs b.checkers b.pins };
}

impl Builder {
    /// A builder of a circuit with this header. It needs no allocation yet.
    pub fn new(alloc: Global, header: Header) -> Builder
        ensures { result ≡ empty header }
    {
        Builder {
            alloc,
            header,
            nets: NetTable::new(alloc),
            assertions: Assertions::new(alloc),
            instances: List::new(alloc),
            outputs: 0,
            checkers: 0,
            pins: 0,
            recent: 0,
        }
    }

    /// What holds of each builder: names stand once, and all counts are within the limits.
    pub fn known(&self)
        ensures { IsBuilt self.now }
    {
        let _ = &self.alloc;
    }

    /// The number of the net with this path, base and bit, which a new one gets now. A path is
    /// empty or ends with a slash; a global has an empty path, and its base begins with a slash.
    /// The assertion is one of all bits of this path and base. `AssertionClash` comes exactly if
    /// an assertion of them that was given before differs, and else `TooMany` exactly if the net
    /// is new and 65,536 are there. After a refusal, or if memory runs out, the builder is as
    /// before.
    pub fn net(
        &mut self,
        path: &[u8],
        base: &[u8],
        bit: u16,
        spec: &AssertSpec,
        place: Place,
    ) -> Result<u32, Stop>
        requires { Fits self.old.header spec.now }
        ensures given { let name : Name = record { text = path.now ++ base.now; bit = bit } in
            IfOk result (GivesNet self.old self.new name spec.now) }
        ensures refused { let name : Name = record { text = path.now ++ base.now; bit = bit } in
            IfErr result (λ stop.
            (self.new ≡ self.old) × IsNetRefusal self.old name spec.now place stop) }
    {
        let number = match self.next_found(path, base, bit, spec) {
            Some(number) => number,
            None => self.net_by_name(path, base, bit, spec, place)?,
        };
        self.recent = number;
        Ok(number)
    }

    /// The number after the last one that was given, if it is that of a net with this path, base
    /// and bit, of which nothing is asserted here. No name is put together to find it.
    fn next_found(&self, path: &[u8], base: &[u8], bit: u16, spec: &AssertSpec) -> Option<u32>
        ensures { let name : Name = record { text = path.now ++ base.now; bit = bit } in
            IfSome result (λ i. (is_asserted spec.now ≡ false) × IsNumber self.now.names name i) }
    {
        if is_asserted(spec) {
            return None;
        }
        let next = self.recent.saturating_add(1);
        if next as usize >= self.nets.len() {
            return None;
        }
        let name = self.nets.name(next as usize);
        if name.bit == bit && is_joined(name.text.as_slice(), path, base) {
            Some(next)
        } else {
            None
        }
    }

    /// The number of the net of this name, as `net` gives it.
    fn net_by_name(
        &mut self,
        path: &[u8],
        base: &[u8],
        bit: u16,
        spec: &AssertSpec,
        place: Place,
    ) -> Result<u32, Stop>
        requires { Fits self.old.header spec.now }
        ensures given { let name : Name = record { text = path.now ++ base.now; bit = bit } in
            IfOk result (GivesNet self.old self.new name spec.now) }
        ensures refused { let name : Name = record { text = path.now ++ base.now; bit = bit } in
            IfErr result (λ stop.
            (self.new ≡ self.old) × IsNetRefusal self.old name spec.now place stop) }
    {
        let name = NetName {
            text: Text::joined(self.alloc, path, base)?,
            bit,
        };
        if self.assertions.clashes(name.text.as_slice(), spec) {
            return Err(Stop::refused(RefusalKind::AssertionClash, place));
        }
        let asserted_before = self.assertions.len();
        self.assert(name.text.as_slice(), spec)?;
        match self.number(name, place) {
            Ok(number) => Ok(number),
            Err(stop) => {
                self.forget_assertions(asserted_before);
                Err(stop)
            }
        }
    }

    /// Keeps what is asserted of a text.
    fn assert(&mut self, text: &[u8], spec: &AssertSpec) -> Result<(), NoMemory>
        requires { Fits self.old.header spec.now }
        ensures ok { OnOk result (self.new ≡ after_assertion self.old text.now spec.now) }
        ensures err { OnErr result (self.new ≡ self.old) }
    {
        self.assertions.add(self.alloc, text, spec)?;
        Ok(())
    }

    /// Forgets all assertions but the first.
    fn forget_assertions(&mut self, count: usize)
        ensures { self.new ≡ record self.old { asserted = take count self.old.asserted } }
    {
        self.assertions.truncate(count);
    }

    /// The wire bounds of nets for which no other are set.
    fn default_wire(&self) -> Delay
        ensures { result ≡ self.now.header.wire }
    {
        self.header.wire
    }

    /// The number of the net of this name, which a new one gets now.
    fn number(&mut self, name: NetName, place: Place) -> Result<u32, Stop>
        ensures given { IfOk result (GivesNumber self.old self.new (name_of_key name)) }
        ensures refused { IfErr result (λ stop.
            (self.new ≡ self.old) × IsNumberRefusal self.old (name_of_key name) place stop) }
    {
        if let Some(number) = self.nets.number_of(&name) {
            return Ok(number as u32);
        }
        let number = self.nets.len();
        if number >= MOST_BITS {
            return Err(Stop::refused(RefusalKind::TooMany, place));
        }
        let wire = self.default_wire();
        self.nets.add(name, wire)?;
        Ok(number as u32)
    }

    /// Sets the bounds of a net's wires, which are the header's if none are set; those that are
    /// set last count.
    pub fn wire(&mut self, net: u32, wire: Delay)
        requires { net < length self.old.names }
        ensures { self.new ≡ after_wire self.old net wire }
    {
        self.nets.set_wire(net as usize, wire);
    }

    /// Adds an instance, and says its number. `TooMany` comes exactly if it would be the
    /// 65,537th with an output, or the 65,537th checker, or there would be more than 1,048,576
    /// pins; its place is the instance's. After a refusal, or if memory runs out, the builder is
    /// as before, and the instance is dropped.
    pub fn instance(&mut self, instance: Instance) -> Result<u32, Stop>
        requires { InstanceFits self.old.header (length self.old.names) instance }
        ensures given { IfOk result (GivesInstance self.old self.new instance) }
        ensures refused { IfErr result (λ stop.
            (self.new ≡ self.old) × IsInstanceRefusal self.old instance stop) }
    {
        if !self.has_room(&instance) {
            return Err(Stop::refused(RefusalKind::TooMany, instance.place));
        }
        let number = self.instances.len() as u32;
        let has_output = instance.kind.has_output();
        let pins = instance.pins.len() as u32;
        self.instances.push(instance)?;
        self.outputs += u32::from(has_output);
        self.checkers += u32::from(!has_output);
        self.pins += pins;
        Ok(number)
    }

    /// Whether one instance more is within the limits.
    fn has_room(&self, instance: &Instance) -> bool
        ensures { result ≡ not (is_one_too_many self.now.instances instance.now) }
    {
        let alike = if instance.kind.has_output() {
            self.outputs
        } else {
            self.checkers
        };
        (alike as usize) < MOST_BITS && instance.pins.len() <= MOST_PINS - self.pins as usize
    }
}

/// Whether a text is the bytes of the one and then those of the other.
fn is_joined(text: &[u8], path: &[u8], base: &[u8]) -> bool
    ensures { IsTrue result → text.now ≡ path.now ++ base.now }
{
    match text.strip_prefix(path) {
        Some(rest) => rest == base,
        None => false,
    }
}
