//! The figures of a line of a report.
ghost use Rattle.std.specs.Prelude.{◌≡◌, ℕ, ◌+◌, ◌^◌};
ghost use Rattle.experiment.specs.Text.{AmountsAtMost, figures_of, no_figures, with_step};

use series_simulation::StepRow;

/// What became of the traffic of a step or of all steps, in units of demand, and how far the links were used.
#[derive(Clone, Copy)]
pub struct Figures {
    /// The demands of all declared pairs.
    pub offered: u128,
    /// What arrived.
    pub delivered: u128,
    /// What was lost on links that were full.
    pub lost_full: u128,
    /// What was lost on links that had failed.
    pub lost_failed: u128,
    /// What was lost for want of a path.
    pub lost_no_path: u128,
    /// The greatest over the links of what they carried over their capacities, in millionths, rounded up.
    pub peak: u128,
    /// The greatest utilisation by the scheme's own routing, in millionths, rounded up.
    pub parts: u128,
}

impl Figures {
    /// The figures of no step.
    pub fn none() -> Figures
        ensures { result ≡ no_figures }
    {
        Figures {
            offered: 0,
            delivered: 0,
            lost_full: 0,
            lost_failed: 0,
            lost_no_path: 0,
            peak: 0,
            parts: 0,
        }
    }

    /// The figures of a step.
    pub fn of(row: &StepRow) -> Figures
        ensures figures { result ≡ figures_of row.now }
        ensures small { AmountsAtMost (2 ^ 64) result }
    {
        Figures {
            offered: u128::from(row.result.offered),
            delivered: u128::from(row.result.delivered),
            lost_full: u128::from(row.result.lost_full),
            lost_failed: u128::from(row.result.lost_failed),
            lost_no_path: u128::from(row.result.lost_no_path),
            peak: u128::from(row.peak),
            parts: row.parts,
        }
    }

    /// Takes in a step: its amounts are added, and the greater utilisations stay.
    pub fn add(&mut self, step: Figures)
        requires room { AmountsAtMost (2 ^ 127) self.old }
        requires small { AmountsAtMost (2 ^ 64) step }
        ensures total { self.new ≡ with_step self.old step }
        ensures small { (bound : ℕ) → AmountsAtMost bound self.old → AmountsAtMost (bound + 2 ^ 64) self.new }
    {
        self.offered += step.offered;
        self.delivered += step.delivered;
        self.lost_full += step.lost_full;
        self.lost_failed += step.lost_failed;
        self.lost_no_path += step.lost_no_path;
        self.peak = self.peak.max(step.peak);
        self.parts = self.parts.max(step.parts);
    }
}
