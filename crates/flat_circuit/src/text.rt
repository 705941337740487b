//! Texts that do not change.

ghost use Rattle.std.specs.Prelude.{◌≡◌, ◌+◌, ◌<◌, ◌≤◌, ◌∷◌, [], ◌++◌, length, nat_eq, IfOk};
ghost use Rattle.std.specs.Cmp.Lexicographic.{pointwise, nat_list_eq_equiv};
ghost use Rattle.std.specs.Cmp.{partial_equiv_from_equiv};
ghost use Rattle.flat_circuit.specs.Text.{short_bytes};

use scald_base::NoMemory;
use std::alloc::Global;
use std::hash::{Hash, Hasher};
use std::marker::Model;

/// How many bytes lie in the value itself.
const ROOM: usize = 15;

/// A short text: so many of these bytes.
#[derive(Clone, Copy, Debug)]
pub(crate) struct Short {
    len: u8,
    bytes: [u8; ROOM],
}

/// Where the bytes of a text lie.
#[derive(Drop, Debug)]
pub(crate) enum Kept {
    Short(Short),
    Long(Box<Vec<u8>>),
}

/// The bytes of a name, which contracts see as the list of them. Up to 15 lie in the value itself,
/// and only more take memory. It takes less room than `Bytes`, since it never grows.
#[derive(Drop, Debug)]
pub struct Text {
    kept: Kept,
}

impl Model for Text {
    ghost use Rattle.std.specs.Prelude.{List, ℕ};
    ghost use Rattle.flat_circuit.specs.Text.{bytes_in};

    ghost Value = { List ℕ };

    ghost view = { λ t. bytes_in t.kept };
}

impl PartialEq for Text {
    ghost eq = { pointwise nat_eq };

    ghost laws = { partial_equiv_from_equiv nat_list_eq_equiv };

    fn eq(&self, other: &Text) -> bool {
        self.as_slice() == other.as_slice()
    }
}

impl Eq for Text {
    ghost laws = { nat_list_eq_equiv };
}

impl Hash for Text {
    ghost use Rattle.std.proofs.Common.{ap};
    ghost use Rattle.std.proofs.lemmas.Slice.Eq.{bytes_eq-Decides};

    ghost hash_input = { λ b. b ∷ [] };

    ghost respects_eq = { λ a b e. ap (λ bytes. bytes ∷ []) ((bytes_eq-Decides a b).0 e) };

    // All bytes in one write: a hasher takes several at once.
    fn hash<H: Hasher>(&self, state: &mut H) {
        state.write(self.as_slice());
    }
}

impl Text {
    /// These bytes.
    pub fn of(alloc: Global, bytes: &[u8]) -> Result<Text, NoMemory>
        ensures { IfOk result (λ text. text ≡ bytes.now) }
    {
        if bytes.len() > ROOM {
            let bytes = Vec::from_slice(alloc, bytes)?;
            return apart(alloc, bytes);
        }
        let mut text = Short::new();
        text.add(bytes);
        Ok(in_place(text))
    }

    /// The bytes of one and then those of the other.
    pub fn joined(alloc: Global, front: &[u8], back: &[u8]) -> Result<Text, NoMemory>
        ensures { IfOk result (λ text. text ≡ front.now ++ back.now) }
    {
        let len = front.len().saturating_add(back.len());
        if len > ROOM {
            let mut bytes = Vec::with_capacity(alloc, len)?;
            bytes.extend_from_slice(front)?;
            bytes.extend_from_slice(back)?;
            return apart(alloc, bytes);
        }
        let mut text = Short::new();
        text.add(front);
        text.add(back);
        Ok(in_place(text))
    }

    /// How many bytes there are.
    pub fn len(&self) -> usize
        ensures { result ≡ length self.now }
    {
        self.as_slice().len()
    }

    /// The bytes as a slice.
    pub fn as_slice(&self) -> &[u8]
        ensures { result.now ≡ self.now }
    {
        match &self.kept {
            Kept::Short(text) => text.as_slice(),
            Kept::Long(bytes) => bytes.as_slice(),
        }
    }
}

fn in_place(text: Short) -> Text
    ensures { result ≡ short_bytes text }
{
    Text {
        kept: Kept::Short(text),
    }
}

fn apart(alloc: Global, bytes: Vec<u8>) -> Result<Text, NoMemory>
    ensures { IfOk result (λ text. text ≡ bytes.items) }
{
    let kept = Kept::Long(Box::new(alloc, bytes)?);
    Ok(Text { kept })
}

impl Short {
    /// No bytes.
    fn new() -> Short
        ensures none { short_bytes result ≡ [] }
        ensures len { result.len ≡ 0 }
    {
        Short {
            len: 0,
            bytes: [0; ROOM],
        }
    }

    fn push(&mut self, byte: u8)
        requires { self.old.len < 15 }
        ensures bytes { short_bytes self.new ≡ short_bytes self.old ++ byte ∷ [] }
        ensures len { self.new.len ≡ self.old.len + 1 }
    {
        self.bytes[self.len as usize] = byte;
        self.len += 1;
    }

    /// Appends bytes.
    fn add(&mut self, bytes: &[u8])
        requires { self.old.len + length bytes.now ≤ 15 }
        ensures bytes { short_bytes self.new ≡ short_bytes self.old ++ bytes.now }
        ensures len { self.new.len ≡ self.old.len + length bytes.now }
    {
        for byte in bytes {
            self.push(*byte);
        }
    }

    fn as_slice(&self) -> &[u8]
        ensures { result.now ≡ short_bytes self.now }
    {
        self.bytes.get(..self.len as usize).unwrap_or(&self.bytes)
    }
}
