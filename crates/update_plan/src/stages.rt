//! The weights of the stages of a plan.
ghost use Rattle.std.specs.Prelude.{◌≡◌, ◌≤◌, All, IfOk, map};
ghost use Rattle.update_plan.specs.Stages.{AreWholeWeights, HasSmallWeights, weight_at_stage};
ghost use Rattle.update_plan.specs.declared.path.TheConstants.{MAX_STEPS};

use crate::path::{UpdatePath, UpdatePlan};
use std::alloc::Global;
use te_model::Memory;

fn weight_at_stage(steps: u32, stage: u32, path: &UpdatePath) -> u64
    requires stage { stage ≤ steps }
    requires steps { steps ≤ MAX_STEPS }
    requires small { HasSmallWeights path.now }
    ensures { result ≡ weight_at_stage steps stage path.now }
{
    u64::from(steps - stage) * path.before + u64::from(stage) * path.after
}

impl UpdatePlan {
    /// The weights of the stage in the order of the paths: `(steps - stage) * before + stage * after`. Stage 0 is the routing
    /// before, and stage `steps` the routing after. Those of a pair sum to `steps` times one million.
    ///
    /// `Memory` comes where memory is wanting.
    pub fn weights(&self, alloc: Global, stage: u32) -> Result<Vec<u64>, Memory>
        requires stage { stage ≤ self.now.steps }
        requires steps { self.now.steps ≤ MAX_STEPS }
        requires small { All HasSmallWeights self.now.paths }
        ensures each { IfOk result (λ w. w.items ≡ map (weight_at_stage self.now.steps stage) self.now.paths) }
        ensures whole { IfOk result (λ w. AreWholeWeights self.now.paths self.now.steps w.items) }
    {
        let paths = self.paths.as_slice();
        let mut weights = Vec::with_capacity(alloc, paths.len())?;
        for path in paths {
            weights.push(weight_at_stage(self.steps, stage, path))?;
        }
        Ok(weights)
    }
}
