//! Laws of summaries. A law is the contract of a function that does nothing.
ghost use Rattle.std.specs.Prelude.{ℕ, List};
ghost use Rattle.generation.specs.Laws.{SummariesExist};
ghost use Rattle.generation.specs.Summary.{IsSummary, ProvesRatio};

/// The ratio of a summary is an oblivious ratio of the routing that was drawn.
pub fn summaries_prove_ratios()
    ensures { (n seed : ℕ) → (text : List ℕ) → IsSummary n seed text → ProvesRatio n seed text }
{}

/// Of 2 to 64 nodes and a seed there is a summary.
pub fn summaries_exist()
    ensures { SummariesExist }
{}
