//! Dropping the front of a list, as a purge does, where room for what is to come stays.

ghost use Rattle.std.specs.Prelude.{◌≡◌, ◌≤◌, ◌+◌, drop, vec_len, vec_capacity};

/// Keeps the values from this one on alone, at the front, and room for so many more. Other room is given back.
pub fn keep_from<T: Copy>(values: &mut Vec<T>, count: usize, more: usize)
    requires { count ≤ vec_len values.old }
    ensures items { values.new.items ≡ drop count values.old.items }
    ensures len { vec_len values.new + count ≡ vec_len values.old }
    ensures room { vec_len values.old + more ≤ vec_capacity values.old
        → vec_len values.new + more ≤ vec_capacity values.new }
{
    let len = values.len();
    let left = len - count;
    values.copy_within(count..len, 0);
    values.truncate(left);
    values.shrink_to(left.saturating_add(more));
}
