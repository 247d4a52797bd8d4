//! Weights in proportion to those before, which sum to one million.
ghost use Rattle.std.specs.Prelude.{◌≡◌, ◌≤◌, All, IfOk, length};
ghost use Rattle.te_model.specs.declared.units.TheConstants.{SHARE_UNIT};
ghost use Rattle.routing.specs.Normal.{with_whole_weight};
ghost use Rattle.routing.specs.Split.{total_weight};

use routing::normalize;
use std::alloc::Global;
use te_model::{Memory, PathShare};

/// The paths with their weights scaled to one million, if there are paths.
pub fn scale_to_unit(alloc: Global, paths: Vec<PathShare>) -> Result<Vec<PathShare>, Memory>
    requires count { length paths.items ≤ 4096 }
    requires weights { All (λ s. 1 ≤ s.weight) paths.items }
    requires whole { total_weight paths.items ≤ SHARE_UNIT }
    ensures { IfOk result (λ v. v.items ≡ with_whole_weight paths.items) }
{
    if paths.is_empty() {
        return Ok(paths);
    }
    let list = normalize(alloc, paths.as_slice())?;
    Ok(list)
}
