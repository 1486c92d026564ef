// Orders on f64: totalOrder on bit patterns and on values, clamp and maximum; a float, its pattern and its place.
#![tactic(auto)]

ghost use Rattle.std.specs.Prelude.{◌≡◌, cond};
ghost use Rattle.std.specs.Float.{binary64};
ghost use Rattle.std.specs.Float.Ieee.{lt};
ghost use Rattle.total.specs.Total.{total_at, key_at};
ghost use Rattle.total.specs.Values.{total_of, clamp_of, max_of};
ghost use Rattle.total.specs.Patterns.{float_of, etx_bits};
ghost use Rattle.total.specs.Places.{key_of, key_float, limit_key};

// Where a pattern stands in totalOrder: a positive one counts up from 2^63, a negative one down from below it.
#[tactic(auto, unfolding(crate::specs::Total::key_at))]
pub fn order_key(b: u64) -> u64
    ensures { result ≡ key_at binary64 b }
{
    if b < 0x8000_0000_0000_0000 {
        b + 0x8000_0000_0000_0000
    } else {
        u64::MAX - b
    }
}

// totalOrder of the patterns a and b: whether a comes not after b. NaNs of both signs and any payload are ordered;
// f64::total_cmp takes none.
pub fn total_bits(a: u64, b: u64) -> bool
    ensures { result ≡ total_at binary64 a b }
{
    order_key(a) <= order_key(b)
}

// Whether x comes not after y. A NaN, which f64::total_cmp takes not, stands where a positive quiet NaN stands, after
// +infinity.
#[tactic(auto, unfolding(crate::specs::Values::total_of))]
pub fn total(x: f64, y: f64) -> bool
    ensures { result ≡ total_of x y }
{
    if y.is_nan() {
        return true;
    }
    if x.is_nan() {
        return false;
    }
    if x < y {
        return true;
    }
    if y < x {
        return false;
    }
    if x == 0.0 {
        return 1.0 / x <= 1.0 / y;
    }
    true
}

// x, or lo where x is below it.
fn raised(x: f64, lo: f64) -> f64
    ensures { result ≡ cond (lt x lo) lo x }
{
    if x < lo { lo } else { x }
}

// x, or hi where x is above it.
fn lowered(x: f64, hi: f64) -> f64
    ensures { result ≡ cond (lt hi x) hi x }
{
    if x > hi { hi } else { x }
}

// x where it lies within lo and hi, else the end that it is beyond. A NaN stays one. Where the ends are in their order,
// this is two steps of the processor: its maximum, then its minimum. f64::clamp takes no ends out of order.
pub fn clamp(x: f64, lo: f64, hi: f64) -> f64
    ensures { result ≡ clamp_of x lo hi }
{
    if hi < lo {
        if x < lo {
            return lo;
        }
        return lowered(x, hi);
    }
    lowered(raised(x, lo), hi)
}

// The larger of the two, the first of equal ones, where f64::max gives either. A NaN gives the other.
pub fn max(x: f64, y: f64) -> f64
    ensures { result ≡ max_of x y }
{
    if x.is_nan() {
        return y;
    }
    if x < y { y } else { x }
}

// The float of a pattern; every NaN's pattern gives the one NaN.
pub fn float_of(bits: u64) -> f64
    ensures { result ≡ float_of bits }
{
    if bits % 0x8000_0000_0000_0000 > 0x7ff0_0000_0000_0000 {
        f64::NAN
    } else {
        f64::from_bits(bits)
    }
}

// The pattern of the ETX: every NaN is the quiet one with no payload.
pub fn etx_bits(x: f64) -> u64
    ensures { result ≡ etx_bits x }
{
    if x.is_nan() {
        return 0x7ff8_0000_0000_0000;
    }
    x.to_bits()
}

// One of two. On numbers alone the compiler makes this a step and no branch.
pub fn pick<T: Copy>(t: bool, a: T, b: T) -> T
    ensures { result ≡ cond t a b }
{
    if t { a } else { b }
}

// Where the float of a pattern stands in totalOrder; every NaN where the positive quiet one does.
pub fn pattern_key(b: u64) -> u64
    ensures { result ≡ key_of (float_of b) }
{
    let rest = b % 0x8000_0000_0000_0000;
    let number = pick(
        b < 0x8000_0000_0000_0000,
        rest + 0x8000_0000_0000_0000,
        0x7fff_ffff_ffff_ffff - rest,
    );
    pick(rest > 0x7ff0_0000_0000_0000, 0xfff8_0000_0000_0000, number)
}

// The float that stands at a place.
pub fn key_float(k: u64) -> f64
    ensures { result ≡ key_float k }
{
    float_of(pick(
        k < 0x8000_0000_0000_0000,
        u64::MAX - k,
        k % 0x8000_0000_0000_0000,
    ))
}

// The last place whose float is at most x: that of +0 for either zero, and 0, where no number stands, for a NaN.
#[tactic(auto, unfolding(crate::specs::Places::limit_key))]
pub fn limit_key(x: f64) -> u64
    ensures { result ≡ limit_key x }
{
    if x.is_nan() {
        return 0;
    }
    if x == 0.0 {
        return 0x8000_0000_0000_0000;
    }
    order_key(etx_bits(x))
}
