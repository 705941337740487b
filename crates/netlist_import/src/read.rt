//! From a text to its netlist.

ghost use Rattle.std.specs.Prelude.{◌≡◌, ◌<◌, ◌^◌, ◌-◌, IfOk, length};
ghost use Rattle.netlist_import.specs.Placed.{placed_of};
ghost use Rattle.netlist_import.specs.Parsed.{beginning, run};
ghost use Rattle.netlist_import.specs.Fault.{netlist_fault};
ghost use Rattle.netlist_import.specs.Netlist.{netlist_of};
ghost use Rattle.netlist_import.specs.Read.{IsRead, judged, reading, valued};

use crate::fault::{FaultKind, Found};
use crate::faults::netlist_fault;
use crate::module::netlist_of;
use crate::netlist::Netlist;
use crate::offset::{place_behind, token_place};
use crate::parser::{ParseEnd, parse};
use crate::types::Types;
use crate::value::Json;
use json::{Reader, Scratch};
use scald_base::{NoMemory, Place};
use simdutf8::compat::from_utf8;
use std::alloc::Global;

/// Why a text is refused, and at which place of it.
#[derive(Clone, Copy)]
pub struct NetlistRefusal {
    pub kind: FaultKind,
    pub place: Place,
}

/// Why a text gives no netlist.
#[derive(Clone, Copy)]
pub enum NetlistEnd {
    Refused(NetlistRefusal),
    /// Memory ran out.
    NoMemory,
}

impl From<NoMemory> for NetlistEnd {
    ghost use Rattle.netlist_import.specs.declared.read.NetlistEnd.TheVariants.{NoMemory as OutOfMemory};

    ghost from_gives = { λ _ e. e ≡ OutOfMemory };

    fn from(_e: NoMemory) -> NetlistEnd {
        NetlistEnd::NoMemory
    }
}

/// The end of a text that is refused.
fn refused(kind: FaultKind, place: Place) -> NetlistEnd
    ensures { result ≡ NetlistEnd.Refused (record { kind = kind; place = place }) }
{
    NetlistEnd::Refused(NetlistRefusal { kind, place })
}

/// The first fault of a value that has these modules.
fn fault_in(alloc: Global, netlist: &Netlist, value: &Json) -> Result<Found, NoMemory>
    ensures { IfOk result (λ found. found ≡ netlist_fault netlist.now (placed_of value.now)) }
{
    let types = Types::of(alloc, netlist.as_slice())?;
    Ok(netlist_fault(&types, value))
}

/// The netlist that a value is.
fn netlist_in(alloc: Global, text: &[u8], value: &Json) -> Result<Netlist, NetlistEnd>
    requires { length text.now < 2 ^ 32 - 1 }
    ensures { IsRead (judged text.now (placed_of value.now)
        (netlist_fault (netlist_of (placed_of value.now)) (placed_of value.now))) result }
{
    let netlist = netlist_of(alloc, value)?;
    if let Some(fault) = fault_in(alloc, &netlist, value)? {
        return Err(refused(fault.kind, token_place(text, fault.token)));
    }
    Ok(netlist)
}

/// The netlist that the tokens of a text are.
fn netlist_read(alloc: Global, text: &[u8], reader: Reader) -> Result<Netlist, NetlistEnd>
    requires { length text.now < 2 ^ 32 - 1 }
    ensures { IsRead (valued text.now (run beginning 0 reader.entry)) result }
{
    match parse(alloc, reader) {
        Ok(value) => netlist_in(alloc, text, &value),
        Err(ParseEnd::Wrong(token)) => Err(refused(FaultKind::Json, token_place(text, token))),
        Err(ParseEnd::NoMemory) => Err(NetlistEnd::NoMemory),
    }
}

/// The modules of a netlist that yosys wrote as JSON, or why it is refused, or `NoMemory` if
/// memory ran out.
#[tactic(auto, using(crate::proofs::Decoded::is_decoded), unfolding(crate::specs::Read::reading))]
pub fn read_netlist(alloc: Global, text: &[u8]) -> Result<Netlist, NetlistEnd>
    requires { length text.now < 2 ^ 32 - 1 }
    ensures { IsRead (reading text.now) result }
{
    let characters = match from_utf8(text) {
        Ok(characters) => characters,
        Err(error) => {
            let place = place_behind(&text[..error.valid_up_to()]);
            return Err(refused(FaultKind::Json, place));
        }
    };
    let mut scratch = Scratch::new(alloc);
    let Ok(reader) = Reader::new(characters, &mut scratch) else {
        return Err(NetlistEnd::NoMemory);
    };
    netlist_read(alloc, text, reader)
}
