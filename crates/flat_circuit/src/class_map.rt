//! Numbers of classes.

use scald_base::List;

/// For each net, by its number, the number of its class.
pub type ClassMap = List<u32>;
