//! Inserts items into vectors, and appends items, without an allocation.
ghost use Rattle.std.specs.Prelude.{◌≡◌, ◌+◌, ◌++◌, ◌<◌, ◌≤◌, length, vec_len};
ghost use Rattle.std.specs.Vec.{vec_capacity};
ghost use Rattle.std.specs.List.{insert};

/// Inserts the item at the index `at`. The vector has capacity for another item, so the call
/// allocates no memory and can't fail.
pub fn insert_within<T: Copy>(items: &mut Vec<T>, at: usize, item: T)
    requires bound { at ≤ vec_len items.old }
    requires capacity { vec_len items.old < vec_capacity items.old }
    ensures items { items.new.items ≡ insert items.old.items at item }
    ensures len { vec_len items.new ≡ vec_len items.old + 1 }
    ensures capacity { vec_capacity items.old ≤ vec_capacity items.new }
{
    let _ = items.insert(at, item);
}

/// Appends the items. The vector has capacity for all of them, so the call allocates no memory and
/// can't fail.
pub(crate) fn extend_within<T: Copy>(items: &mut Vec<T>, more: &[T])
    requires { vec_len items.old + length more.now ≤ vec_capacity items.old }
    ensures items { items.new.items ≡ items.old.items ++ more.now }
    ensures len { vec_len items.new ≡ vec_len items.old + length more.now }
    ensures capacity { vec_capacity items.old ≤ vec_capacity items.new }
{
    let _ = items.extend_from_slice(more);
}
