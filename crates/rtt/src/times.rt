// The timeout.
ghost use Rattle.std.specs.Prelude.{◌≡◌};
ghost use Rattle.rtt.specs.Times.{thrice_of, timeout_by};

// Three times a round trip, which stops at 2^64 - 1; 0 where nothing was measured.
fn thrice(rtt: Option<u64>) -> u64
    ensures { result ≡ thrice_of rtt }
{
    rtt.unwrap_or(0).saturating_mul(3)
}

// How long a probe waits for its answer, by the last and the largest round trip.
pub fn timeout(last: Option<u64>, largest: Option<u64>, floor: u64, cap: u64) -> u64
    ensures { result ≡ timeout_by last largest floor cap }
{
    floor.max(thrice(last)).max(thrice(largest).min(cap))
}
