// Every function of libhessiantalc.a, for C or Rust to call, by numbers and lent memory. Nothing is required of the
// caller; a call outside the limits is refused. What each does stands in a crate below, with the same contract; here it
// gets its name for C, since a library's file has the functions of its own crate alone.
#![tactic(auto)]

ghost use Rattle.std.specs.Prelude.{◌≡◌};
ghost use Rattle.std.specs.Float.{binary64};
ghost use Rattle.base.specs.Serial.{after_of};
ghost use Rattle.base.specs.Time.{elapsed_of};
ghost use Rattle.total.specs.Total.{total_at};
ghost use Rattle.total.specs.Values.{total_of, clamp_of, max_of};
ghost use Rattle.etx.specs.Etx.{fold_of, quality_of};
ghost use Rattle.c_reply.specs.Replies.{maybe_of};
ghost use Rattle.c_single.specs.Single.{deadline_reply, seconds_reply, score_reply, size_reply, timeout_reply};

use c_reply::{FloatReply, Reply};

pub mod choice;
pub mod events;
pub mod record;

// Whether identifier a comes after b.
#[unsafe(no_mangle)]
pub extern "C" fn hess_after(a: u32, b: u32) -> bool
    ensures { result ≡ after_of 32 a b }
{
    base::serial::after(a, b)
}

// The instant d after t; 6 for a duration of 2^62 or more.
#[unsafe(no_mangle)]
pub extern "C" fn hess_deadline(t: u64, d: u64) -> Reply
    ensures { result ≡ deadline_reply t d }
{
    c_single::deadline(t, d)
}

// The time from `from` to `now`, 0 where the clock went back.
#[unsafe(no_mangle)]
pub extern "C" fn hess_elapsed(now: u64, from: u64) -> u64
    ensures { result ≡ elapsed_of now from }
{
    base::time::elapsed(now, from)
}

// The ETX after one probe's outcome.
#[unsafe(no_mangle)]
pub extern "C" fn hess_fold(etx: f64, delivered: bool) -> f64
    ensures { result ≡ fold_of etx delivered }
{
    etx::fold(etx, delivered)
}

// The quality index of an ETX and a round trip in milliseconds.
#[unsafe(no_mangle)]
pub extern "C" fn hess_quality_index(etx: f64, rtt_ms: f64) -> f64
    ensures { result ≡ quality_of etx rtt_ms }
{
    etx::quality_index(etx, rtt_ms)
}

// x where it lies within lo and hi, else the end that it is beyond.
#[unsafe(no_mangle)]
pub extern "C" fn hess_clamp(x: f64, lo: f64, hi: f64) -> f64
    ensures { result ≡ clamp_of x lo hi }
{
    total::clamp(x, lo, hi)
}

// The larger of two floats; a NaN gives the other.
#[unsafe(no_mangle)]
pub extern "C" fn hess_max(x: f64, y: f64) -> f64
    ensures { result ≡ max_of x y }
{
    total::max(x, y)
}

// A duration in seconds; 6 for one of 2^62 or more.
#[unsafe(no_mangle)]
pub extern "C" fn hess_seconds(ns: u64) -> FloatReply
    ensures { result ≡ seconds_reply ns }
{
    c_single::seconds(ns)
}

// The score of a path by its ETX and its least round trip; 6 for a round trip of 2^62 or more.
#[unsafe(no_mangle)]
pub extern "C" fn hess_score(etx: f64, rtt: u64) -> FloatReply
    ensures { result ≡ score_reply etx rtt }
{
    c_single::score(etx, rtt)
}

// totalOrder of two bit patterns.
#[unsafe(no_mangle)]
pub extern "C" fn hess_total_bits(a: u64, b: u64) -> bool
    ensures { result ≡ total_at binary64 a b }
{
    total::total_bits(a, b)
}

// totalOrder of two floats, a NaN as a positive quiet one.
#[unsafe(no_mangle)]
pub extern "C" fn hess_total(a: f64, b: f64) -> bool
    ensures { result ≡ total_of a b }
{
    total::total(a, b)
}

// The size of the next probe of a path whose last size is `last`, if held; 5 for sizes outside the limits.
#[unsafe(no_mangle)]
pub extern "C" fn hess_size(full: u32, fallen: bool, held: bool, last: u32) -> Reply
    ensures { result ≡ size_reply full fallen held last }
{
    c_single::size(full, fallen, held, last)
}

// The probe timeout by the last and the largest round trip; 6 for a floor or cap of 2^62 or more.
#[unsafe(no_mangle)]
pub extern "C" fn hess_timeout(
    floor: u64,
    cap: u64,
    timed: bool,
    last: u64,
    sampled: bool,
    largest: u64,
) -> Reply
    ensures { result ≡ timeout_reply floor cap (maybe_of timed last) (maybe_of sampled largest) }
{
    c_single::timeout(floor, cap, timed, last, sampled, largest)
}
