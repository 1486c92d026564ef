// ETX, its fold and the quality index: the Rust's float steps in its order, each rounded once.
#![tactic(auto)]

ghost use Rattle.std.specs.Prelude.{◌≡◌};
ghost use Rattle.etx.specs.Etx.{outcome_of, inverted_of, averaged_of, fold_of, quality_of, seconds_of};

// The weight of one probe's outcome in the long average of the delivery ratio.
const EWMA_LONG_ALPHA: f64 = 1.0 / 32.0;

// What a probe's outcome counts in the average.
fn outcome(delivered: bool) -> f64
    ensures { result ≡ outcome_of delivered }
{
    if delivered { 1.0 } else { 0.0 }
}

// The ETX of a delivery ratio, within 1 and 100.
fn inverted(ratio: f64) -> f64
    ensures { result ≡ inverted_of ratio }
{
    total::clamp(1.0 / ratio, 1.0, 100.0)
}

// The ETX after one more outcome, by the delivery ratio before it. The ratio after it is hardly ever below 0.01: as a
// branch that costs the next fold nothing, as a maximum a step before its division.
fn averaged(ratio: f64, delivered: bool) -> f64
    ensures { result ≡ averaged_of ratio delivered }
{
    let sample = outcome(delivered);
    let next = ratio + EWMA_LONG_ALPHA * (sample - ratio);
    if next.is_nan() || next < 0.01 {
        return inverted(0.01);
    }
    inverted(next)
}

// Folds one probe's outcome into the ETX: the long average of the delivery ratio, inverted and clamped to 1 and 100.
// The ends of the ratio are branches too.
#[tactic(auto, unfolding(crate::specs::Etx::fold_of))]
pub fn fold(etx: f64, delivered: bool) -> f64
    ensures { result ≡ fold_of etx delivered }
{
    let ratio = 1.0 / etx;
    if ratio < 0.01 {
        return averaged(0.01, delivered);
    }
    if 1.0 < ratio {
        return averaged(1.0, delivered);
    }
    averaged(ratio, delivered)
}

// The quality index of an ETX and a round trip in milliseconds: the lower the better.
#[tactic(auto, unfolding(crate::specs::Etx::quality_of))]
pub fn quality_index(etx: f64, rtt_ms: f64) -> f64
    ensures { result ≡ quality_of etx rtt_ms }
{
    etx * (1.0 + rtt_ms / 100.0)
}

// A duration of nanoseconds in seconds: the whole seconds, and the rest divided by 10^9.
pub fn seconds(ns: u64) -> f64
    ensures { result ≡ seconds_of ns }
{
    let whole = ns / 1_000_000_000;
    let rest = ns % 1_000_000_000;
    (whole as f64) + (rest as f64) / 1e9
}
