// The score of a path, and its score over the horizon (the Rust's `score` and `steady` of select.rs).
#![tactic(auto)]

ghost use Rattle.std.specs.Prelude.{◌≡◌};
ghost use Rattle.etx.specs.Etx.{score_of};
ghost use Rattle.scores.specs.Scores.{scored, path_score, path_steady};

use live::types::Liveness;

// The quality index of an ETX and a round trip of so many nanoseconds, taken in milliseconds.
#[tactic(auto, unfolding(etx::specs::Etx::score_of))]
pub fn quality(etx: f64, ns: u64) -> f64
    ensures { result ≡ score_of etx ns }
{
    etx::quality_index(etx, etx::seconds(ns) * 1000.0)
}

// The quality index of an ETX and a round trip, if there is one.
pub fn score_of(etx: f64, rtt: Option<u64>) -> Option<f64>
    ensures { result ≡ scored etx rtt }
{
    rtt.map(|t| quality(etx, t))
}

// The score of a path: by its least round trip of the window; none until one was measured.
pub fn score(path: Liveness) -> Option<f64>
    ensures { result ≡ path_score path }
{
    score_of(path.etx, path.min_rtt())
}

// The score of a path over the horizon: by its least round trip over it.
pub fn steady(path: Liveness) -> Option<f64>
    ensures { result ≡ path_steady path }
{
    score_of(path.etx, path.base_rtt())
}
