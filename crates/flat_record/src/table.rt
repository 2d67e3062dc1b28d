//! Lists of entries by number, in rising order, and where an entry of a number stands in them.
ghost use Rattle.std.specs.Prelude.{◌≡◌, ◌<◌, ◌≤◌, ◌+◌, ℕ, List, ◌==◌, nat_le, position, length, vec_len, vec_capacity, filter, not, IsTrue};
ghost use Rattle.std.specs.Ordering.{nat_cmp};
ghost use Rattle.std.specs.FinMap.{from_entries, insert, remove, put, is_sorted};

/// The place of the first entry of this number.
pub fn place_of<V>(entries: &Vec<(u64, V)>, key: u64) -> Option<usize>
    ensures { result ≡ position (λ entry. entry.0 == key) entries.now.items }
{
    entries.iter().position(|entry| entry.0 == key)
}

/// The place of the first entry whose number isn't below this one.
fn place_from<V>(entries: &Vec<(u64, V)>, key: u64) -> Option<usize>
    ensures { result ≡ position (λ entry. nat_le key entry.0) entries.now.items }
{
    entries.iter().position(|entry| key <= entry.0)
}

/// Gives this number a value, in place of the one that it has, or before the first entry of a greater number. Takes no
/// memory where the list has room for one entry more.
pub fn put_entry<V: Drop>(entries: &mut Vec<(u64, V)>, key: u64, value: V)
    requires room { vec_len entries.old < vec_capacity entries.old }
    ensures items { entries.new.items ≡ put nat_cmp key value entries.old.items }
    ensures map { from_entries {R = nat_cmp} entries.new.items ≡ insert (from_entries entries.old.items) key value }
    ensures rising { IsTrue (is_sorted nat_cmp entries.old.items) → IsTrue (is_sorted nat_cmp entries.new.items) }
    ensures len { vec_len entries.new ≤ vec_len entries.old + 1 }
    ensures capacity { vec_capacity entries.old ≤ vec_capacity entries.new }
{
    match place_from(entries, key) {
        Some(at) => {
            if entries[at].0 == key {
                entries[at] = (key, value);
                return;
            }
            match entries.insert(at, (key, value)) {
                Ok(()) => {}
                Err(_) => unreachable!(),
            }
        }
        None => match entries.push((key, value)) {
            Ok(()) => {}
            Err(_) => unreachable!(),
        },
    }
}

/// Takes each entry of this number away.
pub fn drop_entries<V: Drop>(entries: &mut Vec<(u64, V)>, key: u64)
    ensures items { entries.new.items ≡ filter (λ entry. not (entry.0 == key)) entries.old.items }
    ensures map { from_entries {R = nat_cmp} entries.new.items ≡ remove (from_entries entries.old.items) key }
    ensures rising { IsTrue (is_sorted nat_cmp entries.old.items) → IsTrue (is_sorted nat_cmp entries.new.items) }
{
    entries.retain(|entry| entry.0 != key);
}
