//! Lists of numbers by place.

/// What a list has at a place; 0 past its end.
pub fn at(numbers: &[u32], place: usize) -> u32 {
    numbers.get(place).copied().unwrap_or(0)
}

/// Puts a number in a place, if the list has it.
pub fn put(numbers: &mut [u32], place: usize, number: u32) {
    if place < numbers.len() {
        numbers[place] = number;
    }
}

/// How many nets or classes there are, or a place among them, in 32 bits, which are enough: a
/// circuit has at most 65,536 nets.
pub fn narrow(count: usize) -> u32 {
    u32::try_from(count).unwrap_or(u32::MAX)
}
