//! Texts of values, which differ if the values do.

ghost use Rattle.std.specs.Prelude.{◌≡◌, ◌++◌, OnOk, codes, map};
ghost use Rattle.std.specs.List.{flat_map};
ghost use Rattle.netlist_import.specs.Placed.{measured, member_of, member_spelled, placed_of, spelled};

use crate::value::{Json, Member};
use itoa::Buffer;
use scald_base::{Bytes, NoMemory};

/// Puts a text at the end of `out`, its length before it.
fn add_measured(out: &mut Bytes, bytes: &[u8]) -> Result<(), NoMemory>
    ensures { OnOk result (out.new ≡ out.old ++ measured bytes.now) }
{
    out.extend(Buffer::new().format(bytes.len()).as_bytes())?;
    out.push(b':')?;
    out.extend(bytes)
}

/// Puts the text of a value at the end of `out`.
#[cycle(spelling)]
#[tactic(auto, using(crate::proofs::Joined::views))]
pub(crate) fn spell(value: &Json, out: &mut Bytes) -> Result<(), NoMemory>
    ensures { OnOk result (out.new ≡ out.old ++ spelled (placed_of value.now)) }
{
    match value {
        Json::Null(_) => out.push(b'n'),
        Json::Bool(_, true) => out.push(b't'),
        Json::Bool(_, false) => out.push(b'f'),
        Json::Number(_, digits) => {
            out.push(b'#')?;
            add_measured(out, digits.as_bytes())
        }
        Json::Text(_, text) => {
            out.push(b'"')?;
            add_measured(out, text.as_bytes())
        }
        Json::Array(_, items) => spell_array(items.as_slice(), out),
        Json::Object(_, members) => spell_object(members.as_slice(), out),
    }
}

/// Puts the text of an array of values at the end of `out`.
#[cycle(spelling)]
fn spell_array(items: &[Json], out: &mut Bytes) -> Result<(), NoMemory>
    ensures { OnOk result (out.new ≡ out.old
        ++ (codes "[" ++ flat_map spelled (map placed_of items.now) ++ codes "]")) }
{
    out.push(b'[')?;
    spell_items(items, out)?;
    out.push(b']')
}

/// Puts the text of an object with these members at the end of `out`.
#[cycle(spelling)]
fn spell_object(members: &[Member], out: &mut Bytes) -> Result<(), NoMemory>
    ensures { OnOk result (out.new ≡ out.old
        ++ (codes "{" ++ flat_map member_spelled (map member_of members.now) ++ codes "}")) }
{
    out.push(b'{')?;
    spell_members(members, out)?;
    out.push(b'}')
}

/// Puts the texts of values at the end of `out`.
#[cycle(spelling)]
fn spell_items(items: &[Json], out: &mut Bytes) -> Result<(), NoMemory>
    ensures { OnOk result (out.new ≡ out.old ++ flat_map spelled (map placed_of items.now)) }
{
    'items: for item in items {
        spell(item, out)?;
    }
    Ok(())
}

/// Puts the text of a member at the end of `out`.
#[cycle(spelling)]
fn spell_member(name: &str, value: &Json, out: &mut Bytes) -> Result<(), NoMemory>
    ensures { OnOk result (out.new ≡ out.old ++ member_spelled (name.now, placed_of value.now)) }
{
    add_measured(out, name.as_bytes())?;
    spell(value, out)
}

/// Puts the texts of members at the end of `out`.
#[cycle(spelling)]
fn spell_members(members: &[Member], out: &mut Bytes) -> Result<(), NoMemory>
    ensures { OnOk result (out.new ≡ out.old ++ flat_map member_spelled
        (map member_of members.now)) }
{
    'members: for member in members {
        spell_member(member.0, &member.1, out)?;
    }
    Ok(())
}
