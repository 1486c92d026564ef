// The places of a path's round trips in its slot's rows, at any kind of place: the first gap, the place for a new one.
ghost use Rattle.std.specs.Prelude.{◌≡◌, ℕ, List, get_or, length};
ghost use Rattle.base.specs.Marked.{first_gap, first_leader, place};
ghost use Rattle.rtt.specs.Marks.{earlier};
ghost use Rattle.rows.specs.Places.{row_count};

use rows::places::*;
use rtt::marked::Marked;

// A kind of place that stands in rows: a sample of the window, a span of the horizon.
pub trait Placed: Marked {
    ghost PLACES: { ℕ };

    ghost places: { List (List ℕ) → List Self };

    const PLACES: usize;

    // What stands at a place.
    fn at(p: &[[u64; 4]; ROWS], i: usize) -> Self
        ensures { result ≡ get_or (places p.now) i Self.gap };

    // The place of the oldest, the first of equals, or the number of places.
    fn oldest(p: &[[u64; 4]; ROWS]) -> usize
        ensures { result ≡ first_leader Self.held (earlier Self.since) (places p.now) };

    // So many places stand in a slot's rows.
    ghost long: { (a : List (List ℕ)) → length a ≡ row_count → length (places a) ≡ PLACES };
}

// The place of the first gap, or the number of places.
pub fn gap<T: Placed>(p: &[[u64; 4]; ROWS]) -> usize
    ensures { result ≡ first_gap T.held (T.places p.now) }
{
    for i in 0..T::PLACES {
        if !T::at(p, i).is_held() {
            return i;
        }
    }
    T::PLACES
}

// The place that a new one takes: the first gap, else the oldest's.
pub fn place<T: Placed>(p: &[[u64; 4]; ROWS]) -> usize
    ensures { result ≡ place T.held (earlier T.since) (T.places p.now) }
{
    let free = gap::<T>(p);
    if free < T::PLACES { free } else { T::oldest(p) }
}
