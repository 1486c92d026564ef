// Arrays whose places are held or gaps, at any type of place: the first gap, the oldest, the newest, the place for a new
// one, the least round trip.
ghost use Rattle.std.specs.Prelude.{◌≡◌, ℕ, Bool, false, ◌<◌, length, map};
ghost use Rattle.std.specs.List.{filter};
ghost use Rattle.base.specs.Marked.{first_gap, first_leader, last_leader, place};
ghost use Rattle.base.specs.Passes.{overtakes, catches};
ghost use Rattle.base.specs.Least.{least_of};
ghost use Rattle.rtt.specs.Marks.{earlier, later};

// A place: a gap, or the instant by which its age is told and a round trip.
pub trait Marked: Copy {
    ghost held: { Self → Bool };

    ghost since: { Self → ℕ };

    ghost trip: { Self → ℕ };

    ghost gap: { Self };

    fn gap() -> Self
        ensures { result ≡ gap };

    fn is_held(&self) -> bool
        ensures { result ≡ held self.now };

    fn since(&self) -> u64
        ensures { result ≡ since self.now };

    fn trip(&self) -> u64
        ensures { result ≡ trip self.now };

    // A gap is not held.
    ghost free: { held gap ≡ false };
}

// The place of the first gap, or the length.
pub fn first_gap<T: Marked>(l: &[T]) -> usize
    ensures { result ≡ first_gap T.held l.now }
{
    l.iter().position(|x| !x.is_held()).unwrap_or(l.len())
}

// Whether one takes the place of the oldest found so far: of equals the first stays.
pub fn older<T: Marked>(x: T, oldest: T) -> bool
    ensures { result ≡ overtakes T.held (earlier T.since) x oldest }
{
    x.is_held() & (!oldest.is_held() | (x.since() < oldest.since()))
}

// Whether one takes the place of the newest found so far: of equals the last does.
pub fn newer<T: Marked>(x: T, newest: T) -> bool
    ensures { result ≡ catches T.held (later T.since) x newest }
{
    x.is_held() & (!newest.is_held() | (newest.since() <= x.since()))
}

// The place of the oldest, the first of equals, or the length.
pub fn oldest<T: Marked>(l: &[T]) -> usize
    ensures { result ≡ first_leader T.held (earlier T.since) l.now }
{
    let mut best = T::gap();
    let mut place = l.len();
    for (i, x) in l.iter().enumerate() {
        if older(*x, best) {
            best = *x;
            place = i;
        }
    }
    place
}

// The place of the newest, the last of equals, or the length.
pub fn newest<T: Marked>(l: &[T]) -> usize
    ensures { result ≡ last_leader T.held (later T.since) l.now }
{
    let mut best = T::gap();
    let mut place = l.len();
    for (i, x) in l.iter().enumerate() {
        if newer(*x, best) {
            best = *x;
            place = i;
        }
    }
    place
}

// The place that a new one takes: the first gap, else the oldest's.
pub fn place<T: Marked>(l: &[T]) -> usize
    ensures at { result ≡ place T.held (earlier T.since) l.now }
    ensures there { 0 < length l.now → result < length l.now }
{
    let gap = first_gap(l);
    if gap < l.len() { gap } else { oldest(l) }
}

// The least round trip.
pub fn least<T: Marked>(l: &[T]) -> Option<u64>
    ensures { result ≡ least_of (map T.trip (filter T.held l.now)) }
{
    l.iter().filter(|x| x.is_held()).map(|x| x.trip()).min()
}
