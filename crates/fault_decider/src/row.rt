//! The bits of a net.

ghost use Rattle.std.specs.Prelude.{◌≡◌, false, slice_index_or};

/// The bit of a row at a tick; 0 past the last.
pub fn bit_in(row: &[bool], t: u32) -> bool
    ensures { result ≡ slice_index_or row.now t false }
{
    match row.get(t as usize) {
        None => false,
        Some(bit) => *bit,
    }
}
