//! What is asked of sections that are joined.

ghost use Rattle.std.specs.Prelude.{◌≡◌, ◌≤◌, [], length, slice_get};
ghost use Rattle.std.specs.List.{list_any};
ghost use Rattle.section_compose.specs.Rule.{name_of, number_of};
ghost use Rattle.section_compose.specs.Rules.{asserts_otherwise, broken_by_header, broken_crossings, broken_globals, broken_headers, broken_nets};
ghost use Rattle.section_compose.specs.Rules.{circuits, crossing_rule, first_broken, global_rule, header_rule, is_at_once_of, rule_at};
ghost use Rattle.section_compose.specs.Same.{same_clocks};

use crate::globals::{crosses, is_driven, is_driven_in_one, is_global, same_net};
use crate::section::Section;
use flat_circuit::{Circuit, Net, is_same_assertion};
use scald_base::{AssertSpec, Header};

/// A rule of sections that are joined.
#[derive(Clone, Copy, PartialEq, Eq, Debug)]
pub enum Rule {
    /// A section lists no case.
    Case,
    /// The clock and the skews of clocks are written alike in all sections.
    Clock,
    /// A global net asserts the same wherever it stands, or nothing anywhere.
    Assertion,
    /// A global net is driven in one section at most.
    Drivers,
    /// A net that crosses asserts something.
    Unasserted,
    /// The driver of a net that crosses takes a tick at least.
    Delay,
}

impl Rule {
    /// The number of the refusal.
    pub fn number(self) -> u8
        ensures { result ≡ number_of self }
    {
        match self {
            Rule::Case => 24,
            Rule::Clock => 25,
            Rule::Assertion => 26,
            Rule::Drivers => 27,
            Rule::Unasserted => 28,
            Rule::Delay => 29,
        }
    }

    /// The name of the refusal.
    pub fn name(self) -> &'static str
        ensures { result.now ≡ name_of self }
    {
        match self {
            Rule::Case => "SectionCase",
            Rule::Clock => "SectionClock",
            Rule::Assertion => "SectionAssertion",
            Rule::Drivers => "SectionDrivers",
            Rule::Unasserted => "SectionUnasserted",
            Rule::Delay => "SectionDelay",
        }
    }
}

/// A rule that a section breaks. Sections count from 1; the net is its position in name order
/// there, from 0, or 0 if the rule is one of sections.
#[derive(Clone, Copy, PartialEq, Eq, Debug)]
pub struct Broken {
    pub rule: Rule,
    pub section: u32,
    pub net: u32,
}

/// The first rule that sections break, of which there are at most 64.
pub fn first_broken(sections: &[Section]) -> Option<Broken>
    requires { length sections.now ≤ 64 }
    ensures { result ≡ first_broken sections.now }
{
    if let Some(broken) = broken_by_header(sections) {
        return Some(broken);
    }
    if let Some(broken) = broken_global(sections) {
        return Some(broken);
    }
    broken_crossing(sections)
}

// ---- each section by itself

/// Whether the clocks and their skews are written alike.
fn same_clocks(a: &Header, b: &Header) -> bool
    ensures { result ≡ same_clocks a.now b.now }
{
    a.units == b.units && a.ticks == b.ticks && a.pskew == b.pskew && a.cskew == b.cskew
}

/// The rule that a section breaks by its cases or by its header.
fn header_rule(first: &Header, section: &Section) -> Option<Rule>
    ensures { result ≡ header_rule first.now section.now }
{
    if section.has_case {
        Some(Rule::Case)
    } else if same_clocks(first, section.circuit.header()) {
        None
    } else {
        Some(Rule::Clock)
    }
}

/// The first section that breaks such a rule beside this header.
fn broken_header(first: &Header, sections: &[Section]) -> Option<Broken>
    requires { length sections.now ≤ 64 }
    ensures { result ≡ broken_headers first.now 1 sections.now }
{
    for s in 0..sections.len() {
        if let Some(rule) = header_rule(first, &sections[s]) {
            return Some(Broken {
                rule,
                section: s as u32 + 1,
                net: 0,
            });
        }
    }
    None
}

/// The first section that breaks such a rule beside the header of the first.
fn broken_by_header(sections: &[Section]) -> Option<Broken>
    requires { length sections.now ≤ 64 }
    ensures { result ≡ broken_by_header sections.now }
{
    match sections.first() {
        Some(first) => broken_header(first.circuit.header(), sections),
        None => None,
    }
}

// ---- global nets, beside the sections before

/// Whether the net of this name asserts something else in a section, or alone asserts something.
fn asserts_otherwise(circuit: &Circuit, net: &Net) -> bool
    ensures { result ≡ asserts_otherwise net.now circuit.now }
{
    match same_net(circuit, net) {
        Some(other) => !is_same_assertion(
            net.spec.or(&AssertSpec::None),
            other.spec.or(&AssertSpec::None),
        ),
        None => false,
    }
}

/// Whether it does so in one of the sections.
fn asserts_otherwise_in_one(sections: &[Section], net: &Net) -> bool
    ensures { result ≡ list_any (asserts_otherwise net.now) (circuits sections.now) }
{
    for s in 0..sections.len() {
        if asserts_otherwise(&sections[s].circuit, net) {
            return true;
        }
    }
    false
}

/// The rule that a net breaks beside the sections before.
fn global_rule(before: &[Section], net: &Net) -> Option<Rule>
    ensures { result ≡ global_rule (circuits before.now) net.now }
{
    if !is_global(net) {
        None
    } else if asserts_otherwise_in_one(before, net) {
        Some(Rule::Assertion)
    } else if is_driven(net) && is_driven_in_one(before, net) {
        Some(Rule::Drivers)
    } else {
        None
    }
}

/// The rule that the net of a number breaks, if there is one.
fn global_rule_at(before: &[Section], circuit: &Circuit, number: u32) -> Option<Rule>
    ensures { result ≡ rule_at (global_rule (circuits before.now))
        (slice_get circuit.now.nets number) }
{
    match circuit.net(number) {
        Some(net) => global_rule(before, net),
        None => None,
    }
}

/// The first net of a section, in name order, that breaks such a rule.
fn broken_global_in(before: &[Section], circuit: &Circuit, section: u32) -> Option<Broken>
    ensures { result ≡ broken_nets
        (global_rule (circuits before.now)) circuit.now section 0 circuit.now.order }
{
    circuit.known();
    for net in 0..circuit.net_count() {
        if let Some(rule) = global_rule_at(before, circuit, circuit.net_at(net)) {
            return Some(Broken { rule, section, net });
        }
    }
    None
}

/// The first section with such a net.
fn broken_global(sections: &[Section]) -> Option<Broken>
    requires { length sections.now ≤ 64 }
    ensures { result ≡ broken_globals [] 1 (circuits sections.now) }
{
    for s in 0..sections.len() {
        if let Some(broken) = broken_global_in(&sections[..s], &sections[s].circuit, s as u32 + 1) {
            return Some(broken);
        }
    }
    None
}

// ---- nets that cross, where they are driven

/// Whether the driver of a net may pass on at once.
fn is_at_once(circuit: &Circuit, net: &Net) -> bool
    ensures { result ≡ is_at_once_of circuit.now net.now }
{
    match net.driver {
        Some(driver) => match circuit.instance(driver) {
            Some(instance) => instance.delay.min == 0,
            None => false,
        },
        None => false,
    }
}

/// The rule that a net of this circuit breaks which its section drives, if it crosses.
fn crossing_rule(sections: &[Section], circuit: &Circuit, net: &Net) -> Option<Rule>
    ensures { result ≡ crossing_rule (circuits sections.now) circuit.now net.now }
{
    if !(is_driven(net) && crosses(sections, net)) {
        None
    } else if matches!(net.spec.or(&AssertSpec::None), AssertSpec::None) {
        Some(Rule::Unasserted)
    } else if is_at_once(circuit, net) {
        Some(Rule::Delay)
    } else {
        None
    }
}

/// The rule that the net of a number breaks, if there is one.
fn crossing_rule_at(sections: &[Section], circuit: &Circuit, number: u32) -> Option<Rule>
    ensures { result
        ≡ rule_at (crossing_rule (circuits sections.now) circuit.now)
        (slice_get circuit.now.nets number) }
{
    match circuit.net(number) {
        Some(net) => crossing_rule(sections, circuit, net),
        None => None,
    }
}

/// The first net of a section, in name order, that breaks such a rule.
fn broken_crossing_in(sections: &[Section], circuit: &Circuit, section: u32) -> Option<Broken>
    ensures { result ≡ broken_nets (crossing_rule (circuits sections.now) circuit.now)
        circuit.now section 0 circuit.now.order }
{
    circuit.known();
    for net in 0..circuit.net_count() {
        if let Some(rule) = crossing_rule_at(sections, circuit, circuit.net_at(net)) {
            return Some(Broken { rule, section, net });
        }
    }
    None
}

/// The first section with such a net.
fn broken_crossing(sections: &[Section]) -> Option<Broken>
    requires { length sections.now ≤ 64 }
    ensures { result ≡ broken_crossings (circuits sections.now) 1 (circuits sections.now) }
{
    for s in 0..sections.len() {
        if let Some(broken) = broken_crossing_in(sections, &sections[s].circuit, s as u32 + 1) {
            return Some(broken);
        }
    }
    None
}
