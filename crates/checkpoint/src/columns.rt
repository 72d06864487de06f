//! What is put behind the others.

ghost use Rattle.std.specs.Prelude.{◌≡◌, ◌<◌, ◌≤◌, [], ◌∷◌, ◌++◌, vec_capacity, vec_len, ◌+◌};

// Puts one more behind the others, where there is room.
pub fn put_behind<T: Drop>(column: &mut Vec<T>, one: T)
    requires { vec_len column.old < vec_capacity column.old }
    ensures items { column.new.items ≡ column.old.items ++ one ∷ [] }
    ensures len { vec_len column.new ≡ vec_len column.old + 1 }
    ensures capacity { vec_capacity column.old ≤ vec_capacity column.new }
{
    match column.push(one) {
        Ok(()) => {}
        Err(_) => unreachable!(),
    }
}
