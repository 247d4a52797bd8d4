//! What a matrix puts on all links, by the routing of a certificate and by a rival, without taking memory.
ghost use Rattle.std.specs.Prelude.{◌≡◌, ℕ, ◌+◌, ◌*◌, ◌^◌, ◌<◌, ◌≤◌, length, slice_index, sum_by, All, IsTrue};
ghost use Rattle.te_model.specs.declared.limits.TheConstants.{FORMAT_2};
ghost use Rattle.te_model.specs.declared.units.TheConstants.{SHARE_UNIT};
ghost use Rattle.te_model.specs.Flow.{load};
ghost use Rattle.te_model.specs.Path.{share, weight_on};
ghost use Rattle.ratio_witness.specs.Judged.{CanJudge};
ghost use Rattle.ratio_witness.specs.Rules.{demand_of};
ghost use Rattle.ratio_witness.specs.Witness.{rival_share};
ghost use Rattle.ratio_checker.specs.Checked.{IsSimplePath};

use crate::witness::Witness;
use multiplicative_lengths::add_wide_along;
use te_model::{FORMAT_2, Head, PathShare};

/// How many links a network has at most.
const MOST: usize = FORMAT_2.links as usize;

// Adds what the demand of a pair with these paths puts on the links.
fn add_demand(loads: &mut [u128], paths: &[PathShare], demand: u64)
    requires count { length loads.old ≡ FORMAT_2.links }
    requires paths { All IsSimplePath paths.now }
    requires whole { sum_by (λ s. s.weight) paths.now ≤ SHARE_UNIT }
    requires demand { demand ≤ 2 ^ 32 }
    requires room { (h : ℕ) → slice_index loads.old h ≤ 2 ^ 66 }
    ensures count { length loads.new ≡ FORMAT_2.links }
    ensures loads { (h : ℕ) → slice_index loads.new h ≡ slice_index loads.old h + demand * weight_on paths.now h }
{
    for path in paths {
        let links = path.links.as_slice();
        let amount = u128::from(demand) * u128::from(path.weight);
        add_wide_along(loads, links, amount);
    }
}

/// What the matrix of the witness puts on each link by the certificate's routing, in millionths.
pub fn loads_by_routes(head: &Head, witness: &Witness) -> [u128; MOST]
    requires { CanJudge head.now witness.now }
    ensures count { length result ≡ FORMAT_2.links }
    ensures loads { (e : ℕ) → slice_index result e ≡ load (length head.now.routes) (demand_of witness.now) (share head.now.routes) e }
    ensures small { (e : ℕ) → slice_index result e ≤ 2 ^ 66 }
{
    let routes = head.routes.as_slice();
    let mut loads = [0; MOST];
    for p in 0..routes.len() {
        let demand = witness.demand_of(p);
        add_demand(&mut loads, routes[p].paths.as_slice(), demand);
    }
    loads
}

/// What the matrix of the witness puts on each link by the rival's paths, in millionths.
pub fn loads_by_rival(head: &Head, witness: &Witness) -> [u128; MOST]
    requires { CanJudge head.now witness.now }
    ensures count { length result ≡ FORMAT_2.links }
    ensures loads { (e : ℕ) → slice_index result e ≡ load (length head.now.routes) (demand_of witness.now) (rival_share witness.now.rival) e }
    ensures small { (e : ℕ) → slice_index result e ≤ 2 ^ 66 }
{
    let mut loads = [0; MOST];
    for p in 0..head.routes.as_slice().len() {
        let demand = witness.demand_of(p);
        add_demand(&mut loads, witness.rival_paths(p), demand);
    }
    loads
}
