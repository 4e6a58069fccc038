// Elements of lists; 0 where there is none.

/// Returns the number at a place; 0 where there is none.
pub fn at(list: &[u64], place: usize) -> u64 {
    match list.get(place) {
        Some(value) => *value,
        None => 0,
    }
}

/// Replaces the number at a place, if there is one.
pub fn set(list: &mut [u64], place: usize, value: u64) {
    if let Some(kept) = list.get_mut(place) {
        *kept = value;
    }
}

/// Returns whether the mark at a place is set.
pub fn is_set(list: &[bool], place: usize) -> bool {
    match list.get(place) {
        Some(value) => *value,
        None => false,
    }
}

/// Sets the mark at a place, if there is one.
pub fn mark(list: &mut [bool], place: usize) {
    if let Some(kept) = list.get_mut(place) {
        *kept = true;
    }
}

/// Appends this many zeros.
pub fn put_zeros(list: &mut Vec<u64>, count: usize) -> Result<(), std::alloc::AllocError> {
    for _ in 0..count {
        list.push(0)?;
    }
    Ok(())
}
