//! Numbers of names, ascending by name.

ghost use Rattle.std.specs.Prelude.{◌≡◌, ◌+◌, ◌<◌, ◌≤◌, ◌++◌, ◌∷◌, [], List, ℕ, map, take, length, vec_capacity, is_ok, IfOk, IfErr};
ghost use Rattle.std.specs.List.{insert, slice_index_or};
ghost use Rattle.closure_plan.specs.Names.{has_name, with_name};
ghost use Rattle.closure_plan.specs.Fresh.{IsOrder};
ghost use Rattle.closure_plan.specs.Plan.{name_at};

use conda_name::Name;

// Puts the numbers of the names from one on into their places. There is room for them.
pub(crate) fn put_numbers(names: &[Name], from: usize, order: &mut Vec<usize>)
    requires room { length order.old.items + length names.now ≤ from + vec_capacity order.old }
    ensures { from ≤ length names.now → IsOrder names.now (take from names.now) order.old.items
        → IsOrder names.now names.now order.new.items }
{
    for n in from..names.len() {
        put_number(names, n, order);
    }
}

// Puts the number of a name into its place, unless the name has one there. There is room for it.
pub(crate) fn put_number(names: &[Name], n: usize, order: &mut Vec<usize>)
    requires name { n < length names.now }
    requires room { length order.old.items < vec_capacity order.old }
    ensures order { (listed : List (List ℕ)) → IsOrder names.now listed order.old.items
        → IsOrder names.now (listed ++ name_at names.now n ∷ []) order.new.items }
    ensures len { length order.new.items ≤ length order.old.items + 1 }
    ensures capacity { vec_capacity order.old ≤ vec_capacity order.new }
{
    match search(names, order, bytes_at(names, n)) {
        Ok(_) => {}
        Err(at) => put_at(order, at, n),
    }
}

// Puts a number at a place. There is room for it.
fn put_at(order: &mut Vec<usize>, at: usize, n: usize)
    requires place { at ≤ length order.old.items }
    requires room { length order.old.items < vec_capacity order.old }
    ensures items { order.new.items ≡ insert order.old.items at n }
    ensures len { length order.new.items ≡ length order.old.items + 1 }
    ensures capacity { vec_capacity order.old ≤ vec_capacity order.new }
{
    match order.insert(at, n) {
        Ok(()) | Err(_) => {}
    }
}

// The name of a number, and the empty text where there is no such name.
pub(crate) fn text_at(names: &[Name], k: usize) -> &str
    ensures { result.now ≡ name_at names.now k }
{
    match names.get(k) {
        Some(name) => name.as_str(),
        None => "",
    }
}

// The bytes of the name of a number, and none where there is no such name.
fn bytes_at(names: &[Name], k: usize) -> &[u8]
    ensures { result.now ≡ name_at names.now k }
{
    match names.get(k) {
        Some(name) => name.as_str().as_bytes(),
        None => b"",
    }
}

// Where a name stands among numbers of names, or where it goes.
pub(crate) fn search(names: &[Name], order: &[usize], name: &[u8]) -> Result<usize, usize>
    ensures is { (listed : List (List ℕ)) → IsOrder names.now listed order.now
        → is_ok result ≡ has_name listed name.now }
    ensures found { IfOk result (λ at. (at < length order.now)
        × (name_at names.now (slice_index_or order.now at 0) ≡ name.now)) }
    ensures bound { IfErr result (λ at. at ≤ length order.now) }
    ensures known { IfOk result (λ _. (listed : List (List ℕ)) → IsOrder names.now listed
        order.now → with_name name.now (map (name_at names.now) order.now)
        ≡ map (name_at names.now) order.now) }
    ensures new { IfErr result (λ at. (listed : List (List ℕ)) → IsOrder names.now listed
        order.now → with_name name.now (map (name_at names.now) order.now)
        ≡ insert (map (name_at names.now) order.now) at name.now) }
{
    order.binary_search_by(|k| bytes_at(names, *k).cmp(name))
}
