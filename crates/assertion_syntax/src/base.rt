//! Names that are a base alone, as most are.

ghost use Rattle.std.specs.Prelude.{◌≡◌, IsTrue, IfOk};
ghost use Rattle.assertion_syntax.specs.Name.{IsBase, IsTextOf, is_base_byte};

use crate::name::SignalName;
use scald_base::{AssertSpec, Bytes, NoMemory};
use std::alloc::Global;

/// The most bytes of a base.
const LONGEST_BASE: usize = 64;

/// Whether a base may have this byte.
pub fn is_base_byte(byte: u8) -> bool
    ensures { result ≡ is_base_byte byte }
{
    byte.is_ascii_alphanumeric() || matches!(byte, b' ' | b'_' | b'#' | b'$')
}

/// Whether a text is a base, and so a name.
pub fn is_base(text: &[u8]) -> bool
    ensures { IsTrue result → IsBase text.now }
{
    if text.len() > LONGEST_BASE {
        return false;
    }
    let mut after_byte = false;
    'bytes: for byte in text {
        if *byte == b' ' {
            if !after_byte {
                return false;
            }
            after_byte = false;
        } else {
            if !is_base_byte(*byte) {
                return false;
            }
            after_byte = true;
        }
    }
    after_byte
}

/// The name that is a base alone.
pub fn base_alone(alloc: Global, base: &[u8]) -> Result<SignalName, NoMemory>
    requires { IsBase base.now }
    ensures { IfOk result (λ name. IsTextOf name base.now) }
{
    let base = Bytes::of(alloc, base)?;
    Ok(SignalName {
        base,
        global: false,
        spec: AssertSpec::None,
    })
}
