// The least of eight keys. Its steps are picks of one of two numbers, which the compiler makes without a branch: the order
// of scores is not to be foretold.
ghost use Rattle.std.specs.Prelude.{◌≡◌, cond};
ghost use Rattle.leads.specs.Keys.{least_lead};

use select::types::PATH_MAX_PER_PEER;
use total::pick;

// A key, and the place where it stands.
#[derive(Clone, Copy)]
pub struct Lead {
    pub key: u64,
    pub at: usize,
}

// The least key, and the first place that has it.
#[tactic(auto, using(crate::proofs::LoopLaws::leading_end))]
pub fn least(keys: [u64; PATH_MAX_PER_PEER]) -> Lead
    ensures { result ≡ least_lead keys }
{
    let mut key = keys[0];
    let mut at: usize = 0;
    for (i, &k) in keys.iter().enumerate() {
        let less = k < key;
        at = pick(less, i, at);
        key = pick(less, k, key);
    }
    Lead { key, at }
}
