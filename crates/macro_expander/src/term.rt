//! The bits of nets and of formals.

ghost use Rattle.std.specs.Prelude.{◌≡◌, ◌++◌, [], IfOk, IfSome, codes, None, if◌then◌else◌};
ghost use Rattle.std.specs.Option.{option_copied};
ghost use Rattle.std.specs.List.{find};
ghost use Rattle.std.specs.Str.{bytes_eq};
ghost use Rattle.scald_base.specs.Fitting.{Fits};
ghost use Rattle.macro_expander.specs.Terms.{net_bit, net_bits as spec_net_bits, net_text, meant, named_bits as spec_named_bits};
ghost use Rattle.macro_expander.specs.Runs.{HasRun};
ghost use Rattle.macro_expander.specs.Numbered.{BitAt, BitsAt, state_of, scope_of, ScopeExists, nets_in, names_in};

use crate::expansion::Expansion;
use crate::range::numbers;
use crate::scope::{Bound, Scope, formal_term};
use assertion_syntax::SignalName;
use scald_base::{AssertSpec, Bytes, List, NoMemory, Place, Stop};
use std::alloc::Global;
use vector_names::{BitRef, Bits, Target};

/// One bit of a net.
fn net(
    expansion: &mut Expansion,
    path: &[u8],
    base: &[u8],
    bit: u16,
    spec: &AssertSpec,
    place: Place,
) -> Result<BitRef, Stop>
    requires { Fits expansion.old.builder.header spec.now }
    ensures { BitAt expansion.old expansion.new result
        (net_bit (path.now ++ base.now) spec.now place bit (state_of expansion.old)) }
{
    expansion.builder.known();
    let number = expansion.builder.net(path, base, bit, spec, place)?;
    expansion.builder.known();
    Ok(BitRef {
        target: Target::Net(number),
        inverted: false,
    })
}

/// The bits of these numbers of a net.
fn net_bits(
    expansion: &mut Expansion,
    alloc: Global,
    path: &[u8],
    base: &[u8],
    spec: &AssertSpec,
    place: Place,
    numbers: &[u16],
) -> Result<Bits, Stop>
    requires { Fits expansion.old.builder.header spec.now }
    ensures { BitsAt expansion.old expansion.new
        result (spec_net_bits (path.now ++ base.now) spec.now place numbers.now
        (state_of expansion.old)) }
{
    let mut bits = List::with_room(alloc, numbers.len())?;
    for number in numbers {
        bits.push(net(expansion, path, base, *number, spec, place)?)?;
    }
    Ok(bits)
}

/// A global's name, with its slash.
fn slashed(alloc: Global, base: &[u8]) -> Result<Bytes, NoMemory>
    ensures { IfOk result (λ text. text ≡ codes "/" ++ base.now) }
{
    let mut text = Bytes::of(alloc, b"/".as_slice())?;
    text.extend(base)?;
    Ok(text)
}

/// The bits of these numbers of a net's name.
fn numbered_bits(
    expansion: &mut Expansion,
    alloc: Global,
    path: &[u8],
    name: &SignalName,
    numbers: &[u16],
    place: Place,
) -> Result<Bits, Stop>
    requires { Fits expansion.old.builder.header name.now.spec }
    ensures { BitsAt expansion.old expansion.new
        result (spec_net_bits (net_text path.now name.now) name.now.spec place numbers.now
        (state_of expansion.old)) }
{
    let base = name.base.as_slice();
    if !name.global {
        return net_bits(expansion, alloc, path, base, &name.spec, place, numbers);
    }
    let base = slashed(alloc, base)?;
    net_bits(
        expansion,
        alloc,
        &[],
        base.as_slice(),
        &name.spec,
        place,
        numbers,
    )
}

/// The bits of a net's name, followed by a range with these ends.
fn fresh_bits(
    expansion: &mut Expansion,
    alloc: Global,
    path: &[u8],
    name: &SignalName,
    ends: Option<(i64, i64)>,
    place: Place,
) -> Result<Bits, Stop>
    requires { Fits expansion.old.builder.header name.now.spec }
    ensures { BitsAt expansion.old expansion.new
        result (meant None (net_text path.now name.now) name.now.spec ends place
        (state_of expansion.old)) }
{
    if ends.is_none() {
        return numbered_bits(expansion, alloc, path, name, &[0], place);
    }
    let numbers = numbers(alloc, ends, place)?;
    numbered_bits(expansion, alloc, path, name, numbers.as_slice(), place)
}

fn local_formal<'a>(scope: &'a Scope, name: &SignalName) -> Option<&'a Bound>
    ensures first { option_copied result
        ≡ (if name.now.global then None
        else find (λ f. bytes_eq f.base name.now.base) scope.now.formals) }
    ensures run { IfSome result (λ f. HasRun f.now) }
{
    if name.global {
        return None;
    }
    scope.formals.find(name.base.as_slice())
}

/// The bits that a name means, followed by a range with these ends.
pub(crate) fn named_bits(
    expansion: &mut Expansion,
    alloc: Global,
    scope: &Scope,
    name: &SignalName,
    ends: Option<(i64, i64)>,
    place: Place,
) -> Result<Bits, Stop>
    requires fits { Fits expansion.old.builder.header name.now.spec }
    requires exists { ScopeExists (nets_in expansion.old) scope.now }
    ensures { BitsAt expansion.old expansion.new result
        (spec_named_bits (scope_of (names_in expansion.old) scope.now) name.now ends place
        (state_of expansion.old)) }
{
    match local_formal(scope, name) {
        Some(bound) => formal_term(alloc, bound, &name.spec, ends, place),
        None => fresh_bits(expansion, alloc, scope.path.as_slice(), name, ends, place),
    }
}
