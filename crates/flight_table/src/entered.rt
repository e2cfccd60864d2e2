//! Ascending lists of flights.

ghost use Rattle.std.specs.Prelude.{◌≡◌, ◌<◌, ◌≤◌, ◌||◌, ◌==◌, ℕ, true, slice_index, length, vec_len, vec_capacity};
ghost use Rattle.std.specs.List.Sorted.{IsStrictlyIncreasing};
ghost use Rattle.flight_journal.specs.State.{is_one_of};

// The place of the first flight that is not below this one.
fn place_of(flights: &[u64], f: u64) -> usize
    requires rising { IsStrictlyIncreasing flights.now }
    ensures within { result ≤ length flights.now }
    ensures below { (n : ℕ) → n < result → slice_index flights.now n < f }
    ensures above { (n : ℕ) → result ≤ n → n < length flights.now → f ≤ slice_index flights.now n }
{
    let mut place = flights.len();
    while place > 0 && flights[place - 1] >= f {
        place -= 1;
    }
    place
}

// Puts a flight where it belongs, if it is not there yet.
pub(crate) fn put(flights: &mut Vec<u64>, f: u64)
    requires room { vec_len flights.old < vec_capacity flights.old }
    requires rising { IsStrictlyIncreasing flights.old.items }
    ensures rising { IsStrictlyIncreasing flights.new.items }
    ensures here { is_one_of f flights.new.items ≡ true }
    ensures others { (g : ℕ) → is_one_of g flights.old.items ≡ true →
        is_one_of g flights.new.items ≡ true }
{
    let place = place_of(flights, f);
    if place < flights.len() && flights[place] == f {
        return;
    }
    let Ok(()) = flights.insert(place, f) else {
        unreachable!()
    };
}
