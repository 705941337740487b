//! The cases that a drawing lists.

ghost use Rattle.std.specs.Prelude.{◌≡◌, ◌<◌, ◌≤◌, ℕ, [], length, not, is_some, IfOk, IfSome, MatchOption, MatchResult};
ghost use Rattle.std.specs.List.{All};
ghost use Rattle.flat_circuit.specs.Name.{IsNumber};
ghost use Rattle.flat_circuit.specs.Builder.{is_asserted};
ghost use Rattle.flat_circuit.specs.Circuit.{net_names};
ghost use Rattle.macro_expander.specs.Cases.{entry_name};
ghost use Rattle.macro_expander.specs.Terms.{net_text};
ghost use Rattle.case_analysis.specs.Listed.{AreCases, AreCasesOf, AreCasesStop, AreNoCases, IsCaseOf, IsCaseStop, IsJudged, IsListed, MaySet, is_free, may_set_at};

use crate::parts::net_of;
use assertion_syntax::SignalName;
use drawing_tree::{CaseEntry, CaseStmt, CaseStmts};
use fixpoint_engine::NetSet;
use flat_circuit::{Case, CaseList, CaseValue, Circuit, Net};
use scald_base::{AssertSpec, Bytes, List, NoMemory, RefusalKind, Stop};
use std::alloc::Global;

/// The most cases of a drawing.
const MOST_CASES: usize = 256;

/// The whole text of a name in the drawing's own scope.
fn text_of(alloc: Global, name: &SignalName) -> Result<Bytes, NoMemory>
    ensures { IfOk result (λ text. text ≡ net_text [] name.now) }
{
    let mut text = Bytes::new(alloc);
    if name.global {
        text.extend(b"/".as_slice())?;
    }
    text.extend(name.base.as_slice())?;
    Ok(text)
}

/// What holds of the number of each bit.
fn bit_known(bit: u16)
    ensures { bit < 65536 }
{
    let _ = bit;
}

/// What holds of the bits of each circuit: their numbers are at most 65,535. It goes through the
/// nets, and is asked at most once for a drawing, if an entry is refused.
fn bits_known(c: &Circuit)
    ensures { All (λ net. net.bit < 65536) c.now.nets }
{
    for i in 0..c.net_count() {
        bit_known(net_of(c, i).bit);
    }
}

/// The number of the net that an entry names, whatever is asserted there.
fn net_named(alloc: Global, c: &Circuit, entry: &CaseEntry) -> Result<Option<u32>, NoMemory>
    ensures { IfOk result (λ net.
        MatchOption net ((i : ℕ) → ¬ (IsNumber (net_names c.now.nets) (entry_name entry.now) i))
        (IsNumber (net_names c.now.nets) (entry_name entry.now))) }
{
    match u16::try_from(entry.bit) {
        Ok(bit) => {
            let text = text_of(alloc, &entry.name)?;
            Ok(c.find(text.as_slice(), bit))
        }
        Err(_) => {
            bits_known(c);
            Ok(None)
        }
    }
}

/// Whether nothing drives the net, and it is no asserted clock.
fn is_free(net: &Net) -> bool
    ensures { result ≡ is_free (Some net.now) }
{
    match net.spec.or(&AssertSpec::None) {
        AssertSpec::Precision(_) | AssertSpec::Clock(_) => false,
        AssertSpec::None | AssertSpec::Stable(_) => net.driver.is_none(),
    }
}

/// Whether the name asserts nothing.
fn is_plain(name: &SignalName) -> bool
    ensures { result ≡ not (is_asserted name.now.spec) }
{
    match name.spec {
        AssertSpec::None => true,
        _ => false,
    }
}

/// Whether an entry may set its net, which has this number and exists: the entry's name asserts
/// nothing, the net is free and was not named before, and the value is a bit.
fn may_set(c: &Circuit, entry: &CaseEntry, named: &NetSet, net: u32) -> bool
    requires { net < length c.now.nets }
    ensures { result ≡ may_set_at c.now named.now entry.now net }
{
    is_plain(&entry.name) && is_free(net_of(c, net)) && !named.has(net) && entry.value <= 1
}

/// The value that an entry gives its net: none if it may not, since its name asserts something,
/// the net does not exist, is driven, is an asserted clock or was named before, or the value is no
/// bit.
fn value_of(
    alloc: Global,
    c: &Circuit,
    entry: &CaseEntry,
    named: &NetSet,
) -> Result<Option<CaseValue>, NoMemory>
    requires { length named.now ≡ length c.now.nets }
    ensures judged { IfOk result (λ value. IsJudged c.now named.now entry.now (is_some value)) }
    ensures value { IfOk result (λ value. IfSome value (MaySet c.now named.now entry.now)) }
{
    c.known();
    match net_named(alloc, c, entry)? {
        None => Ok(None),
        Some(net) => {
            if may_set(c, entry, named, net) {
                let one = entry.value == 1;
                Ok(Some(CaseValue { net, one }))
            } else {
                Ok(None)
            }
        }
    }
}

/// The case of these entries, or the refusal of the first that may not be set.
fn case_of(alloc: Global, c: &Circuit, entries: &[CaseEntry]) -> Result<Case, Stop>
    ensures is { MatchResult result (IsCaseOf c.now entries.now) (IsCaseStop c.now entries.now) }
    ensures listed { IfOk result (IsListed c.now) }
{
    c.known();
    let mut named = NetSet::new(alloc, c.net_count())?;
    let mut case = List::new(alloc);
    for entry in entries {
        match value_of(alloc, c, entry, &named)? {
            Some(value) => {
                named.add(value.net);
                case.push(value)?;
            }
            None => return Err(Stop::refused(RefusalKind::CaseNet, entry.place)),
        }
    }
    Ok(case)
}

/// These cases, or the refusal of the first entry among them that may not be set.
fn cases_of(alloc: Global, c: &Circuit, written: &[CaseStmt]) -> Result<CaseList, Stop>
    ensures is { MatchResult result (AreCases c.now written.now) (AreNoCases c.now written.now) }
    ensures listed { IfOk result (All (IsListed c.now)) }
    ensures each { IfOk result (λ cases. length cases ≡ length written.now) }
{
    let mut cases = List::new(alloc);
    for case in written {
        let listed = case_of(alloc, c, case.entries.as_slice())?;
        cases.push(listed)?;
    }
    Ok(cases)
}

/// The cases that a drawing lists, whose circuit is given. The 257th case is refused, wherever it
/// is, and then the first entry that names a net with an assertion, or one that does not exist, is
/// driven, is an asserted clock or was named before in the same case, or whose value is not 0 or 1;
/// `NoMemory` comes if memory runs out.
pub fn check_cases(alloc: Global, c: &Circuit, written: &CaseStmts) -> Result<CaseList, Stop>
    ensures is { MatchResult result (AreCasesOf c.now written.now)
        (AreCasesStop c.now written.now) }
    ensures listed { IfOk result (All (IsListed c.now)) }
    ensures few { IfOk result (λ cases. length cases ≤ 256) }
{
    match written.get(MOST_CASES) {
        Some(case) => Err(Stop::refused(RefusalKind::TooMany, case.place)),
        None => cases_of(alloc, c, written.as_slice()),
    }
}
