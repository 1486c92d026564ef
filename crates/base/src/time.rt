// Instants and durations are counts of nanoseconds.
ghost use Rattle.std.specs.Prelude.{◌≡◌};
ghost use Rattle.base.specs.Passes.{lower_of, higher_of};
ghost use Rattle.base.specs.Time.{deadline_of, elapsed_of};

// t + d; while that passes 2^64 - 1, d is halved. The only place that adds to an instant.
pub fn deadline(t: u64, d: u64) -> u64
    ensures { result ≡ deadline_of 64 t d }
{
    let room = u64::MAX - t;
    let mut step = d;
    while room < step {
        step = step / 2;
    }
    t + step
}

// The time from `from` to `now`, 0 where the clock went back.
pub fn elapsed(now: u64, from: u64) -> u64
    ensures { result ≡ elapsed_of now from }
{
    if now < from { 0 } else { now - from }
}

// The least so far, with one more.
pub fn lower(least: Option<u64>, x: u64) -> Option<u64>
    ensures { result ≡ lower_of least x }
{
    Some(least.map_or(x, |t| t.min(x)))
}

// The largest so far, with one more.
pub fn higher(largest: Option<u64>, x: u64) -> Option<u64>
    ensures { result ≡ higher_of largest x }
{
    Some(largest.map_or(x, |t| t.max(x)))
}
