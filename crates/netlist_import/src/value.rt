//! The values of a JSON text.

ghost use Rattle.std.specs.Prelude.{◌≡◌, map, option_map};
ghost use Rattle.netlist_import.specs.Netlist.{members_in, members_under};
ghost use Rattle.netlist_import.specs.Placed.{array_of, field, member_of, number_of, object_of, placed_of, text_of, token_of};

use crate::index::{Index, Named};
use scald_base::same_bytes;

/// A value, with the number of its first token in the text, from 0. Its texts are the text's own,
/// their escapes resolved.
#[derive(Drop)]
pub enum Json<'a> {
    Null(u32),
    Bool(u32, bool),
    /// A number, as it is written.
    Number(u32, &'a str),
    Text(u32, &'a str),
    Array(u32, Vec<Json<'a>>),
    /// The members in the order of the text.
    Object(u32, Vec<(&'a str, Json<'a>)>),
}

/// A member's name and its value.
pub(crate) type Member<'a> = (&'a str, Json<'a>);

impl<'a> Named for (&'a str, Json<'a>) {
    ghost name = { λ m. m.0.now };

    fn name(&self) -> &[u8] {
        self.0.as_bytes()
    }
}

impl<'a> Json<'a> {
    /// The number of the value's first token.
    pub(crate) fn token(&self) -> u32
        ensures { result ≡ token_of (placed_of self.now) }
    {
        match self {
            Json::Null(token)
            | Json::Bool(token, _)
            | Json::Number(token, _)
            | Json::Text(token, _)
            | Json::Array(token, _)
            | Json::Object(token, _) => *token,
        }
    }
}

/// The values in an array.
#[tactic(auto, using(crate::proofs::Views::array_view))]
pub(crate) fn array_of<'v, 'a>(value: &'v Json<'a>) -> Option<&'v [Json<'a>]>
    ensures { option_map (λ vs. map placed_of vs.now) result ≡ array_of (placed_of value.now) }
{
    match value {
        Json::Array(_, items) => Some(items.as_slice()),
        _ => None,
    }
}

/// The members of an object.
#[tactic(auto, using(crate::proofs::Views::object_view))]
pub(crate) fn object_of<'v, 'a>(value: &'v Json<'a>) -> Option<&'v [Member<'a>]>
    ensures { option_map (λ ms. map member_of ms.now) result ≡ object_of (placed_of value.now) }
{
    match value {
        Json::Object(_, members) => Some(members.as_slice()),
        _ => None,
    }
}

/// The bytes of a text.
pub(crate) fn text_of<'a>(value: &Json<'a>) -> Option<&'a str>
    ensures { option_map (λ s. s.now) result ≡ text_of (placed_of value.now) }
{
    match value {
        Json::Text(_, text) => Some(*text),
        _ => None,
    }
}

/// A number, as it is written.
pub(crate) fn number_of<'a>(value: &Json<'a>) -> Option<&'a str>
    ensures { option_map (λ s. s.now) result ≡ number_of (placed_of value.now) }
{
    match value {
        Json::Number(_, digits) => Some(*digits),
        _ => None,
    }
}

/// The value of the first member of a name.
#[tactic(auto, unfolding(crate::specs::Placed::field))]
pub(crate) fn field<'v, 'a>(members: &'v [Member<'a>], name: &[u8]) -> Option<&'v Json<'a>>
    ensures { option_map (λ v. placed_of v.now) result ≡ field name.now
        (map member_of members.now) }
{
    for member in members {
        if same_bytes(member.0.as_bytes(), name) {
            return Some(&member.1);
        }
    }
    None
}

/// The same, of members that are looked up.
#[tactic(auto, using(crate::proofs::Found::field_at))]
pub(crate) fn field_of<'v, 'a>(members: &Index<'v, Member<'a>>, name: &[u8]) -> Option<&'v Json<'a>>
    ensures { option_map (λ v. placed_of v.now) result ≡ field name.now
        (map member_of members.now) }
{
    match members.find(name) {
        Some(member) => Some(&member.1),
        None => None,
    }
}

/// The value of a member of an object, if it is one that has it.
#[tactic(auto, unfolding(crate::specs::Placed::field))]
pub(crate) fn field_in<'v, 'a>(value: &'v Json<'a>, name: &[u8]) -> Option<&'v Json<'a>>
    ensures { option_map (λ v. placed_of v.now) result ≡ field name.now
        (members_in (placed_of value.now)) }
{
    match object_of(value) {
        Some(members) => field(members, name),
        None => None,
    }
}

/// The value of a member of the object that another member is, if there are both.
#[tactic(auto, unfolding(crate::specs::Placed::field))]
pub(crate) fn field_under<'v, 'a>(
    value: &'v Json<'a>,
    object: &[u8],
    name: &[u8],
) -> Option<&'v Json<'a>>
    ensures { option_map (λ v. placed_of v.now) result ≡ field name.now
        (members_under object.now (members_in (placed_of value.now))) }
{
    match field_in(value, object) {
        Some(members) => field_in(members, name),
        None => None,
    }
}
