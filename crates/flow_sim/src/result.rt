//! What became of the traffic of a step.
ghost use Rattle.std.specs.Prelude.{◌≡◌, ◌^◌, ◌<◌, sum_by};
ghost use Rattle.flow_sim.specs.Result.{sum_of_results, sums_of, FitsWords, IsSummed};

use te_model::Items;

/// What became of one pair's demand in a step. Each number is in units of demand, and `offered` is the sum of the others.
#[derive(Clone, Copy)]
pub struct PairResult {
    /// The demand of the pair.
    pub offered: u64,
    /// What passed the last link of its path.
    pub delivered: u64,
    /// What was lost on links that were full.
    pub lost_full: u64,
    /// What was lost on links that had failed.
    pub lost_failed: u64,
    /// What was lost since the pair has no path.
    pub lost_no_path: u64,
}

/// What became of the demands of all pairs in a step. Each number is in units of demand, and the first five are the sums over the pairs.
#[derive(Drop)]
pub struct StepResult {
    /// The demands of all pairs.
    pub offered: u64,
    /// What passed the last link of its path.
    pub delivered: u64,
    /// What was lost on links that were full.
    pub lost_full: u64,
    /// What was lost on links that had failed.
    pub lost_failed: u64,
    /// What was lost since its pair has no path.
    pub lost_no_path: u64,
    /// What each link served, one number for each link.
    pub carried: Items<u64>,
    /// One result for each pair.
    pub per_pair: Items<PairResult>,
}

// The sums of two results, field by field.
fn plus(a: PairResult, b: &PairResult) -> PairResult
    requires { FitsWords (sum_of_results a b.now) }
    ensures { result ≡ sum_of_results a b.now }
{
    PairResult {
        offered: a.offered + b.offered,
        delivered: a.delivered + b.delivered,
        lost_full: a.lost_full + b.lost_full,
        lost_failed: a.lost_failed + b.lost_failed,
        lost_no_path: a.lost_no_path + b.lost_no_path,
    }
}

// The sums over the pairs, field by field.
fn sums_of(pairs: &Items<PairResult>) -> PairResult
    requires { FitsWords (sums_of pairs.now) }
    ensures { result ≡ sums_of pairs.now }
{
    let mut sums = PairResult {
        offered: 0,
        delivered: 0,
        lost_full: 0,
        lost_failed: 0,
        lost_no_path: 0,
    };
    for pair in pairs.as_slice() {
        sums = plus(sums, pair);
    }
    sums
}

// The result of a step, with the sums over its pairs.
pub fn step_result(carried: Items<u64>, per_pair: Items<PairResult>) -> StepResult
    requires offered { sum_by (λ p. p.offered) per_pair < 2 ^ 64 }
    requires delivered { sum_by (λ p. p.delivered) per_pair < 2 ^ 64 }
    requires lost_full { sum_by (λ p. p.lost_full) per_pair < 2 ^ 64 }
    requires lost_failed { sum_by (λ p. p.lost_failed) per_pair < 2 ^ 64 }
    requires lost_no_path { sum_by (λ p. p.lost_no_path) per_pair < 2 ^ 64 }
    ensures { IsSummed carried per_pair result }
{
    let sums = sums_of(&per_pair);
    StepResult {
        offered: sums.offered,
        delivered: sums.delivered,
        lost_full: sums.lost_full,
        lost_failed: sums.lost_failed,
        lost_no_path: sums.lost_no_path,
        carried,
        per_pair,
    }
}
