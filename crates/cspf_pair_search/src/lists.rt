//! Reads and writes of lists at any index. The search isn't trusted, so no proof says that its
//! indexes are within its lists.

/// Writes the value at this index. Behind the end of the list nothing is written.
pub(crate) fn put<T: Copy>(values: &mut [T], at: usize, value: T) {
    if let Some(place) = values.get_mut(at) {
        *place = value;
    }
}

/// The value at this index, or `other` behind the end of the list.
pub(crate) fn value_or<T: Copy>(values: &[T], at: usize, other: T) -> T {
    match values.get(at) {
        Some(value) => *value,
        None => other,
    }
}
