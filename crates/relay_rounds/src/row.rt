//! Vectors with reserved room.
ghost use Rattle.std.specs.Prelude.{◌≡◌, ◌+◌, ◌++◌, ◌≤◌, ◌<◌, ℕ, [], ◌∷◌, vec_len, vec_capacity};
ghost use Rattle.relay_rounds.specs.Row.{EachIs};

/// Appends an item to a vector that has room for it.
pub(crate) fn put<T: Drop>(row: &mut Vec<T>, one: T)
    requires { vec_len row.old < vec_capacity row.old }
    ensures items { row.new.items ≡ row.old.items ++ one ∷ [] }
    ensures many { vec_len row.new ≡ vec_len row.old + 1 }
    ensures room { vec_capacity row.old ≤ vec_capacity row.new }
{
    let Ok(()) = row.push(one) else {
        unreachable!()
    };
}

/// Appends `make(place, item)` for each item of `row` to an empty vector that has room for all.
pub(crate) fn map_into<T: Drop, U: Drop, F: Fn(usize, T) -> U>(
    row: Vec<T>,
    made: Vec<U>,
    make: F,
) -> Vec<U>
    requires may { (at : ℕ) (one : T) → at < vec_len row → F.pre make at one }
    requires empty { made.items ≡ [] }
    requires room { vec_len row ≤ vec_capacity made }
    ensures each { EachIs (λ one other. (at : ℕ) × F.post make at one other) row.items result.items }
    ensures many { vec_len result ≡ vec_len row }
{
    let mut made = made;
    let mut at = 0;
    for one in row {
        put(&mut made, make(at, one));
        at += 1;
    }
    made
}
