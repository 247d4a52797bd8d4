//! What holds of the shares of every routing, and that cuts, merges, even mixes and decompositions exist.
ghost use Rattle.std.specs.Prelude.{◌≡◌, ℕ, ◌<◌, length, sum_by};
ghost use Rattle.te_model.specs.Counting.{sum_below};
ghost use Rattle.te_model.specs.declared.units.TheConstants.{SHARE_UNIT};
ghost use Rattle.te_model.specs.Flow.{IsFlow};
ghost use Rattle.te_model.specs.Path.{share, source_of, destination_of};
ghost use Rattle.routing.specs.Laws.{CutsExist, DecompositionsExist, EvenMixesExist, MergesExist};
ghost use Rattle.routing.specs.Routes.{IsRoutingOf};
ghost use Rattle.routing.specs.Shares.{AreSharesOn};

use crate::routes::Routing;
use crate::shares::PairShare;
use te_model::{Network, Pairs};

/// The shares of each pair are a flow of one million from its source to its destination.
pub fn routing_shares_are_flows(net: &Network, pairs: &Pairs, routing: &Routing)
    requires { IsRoutingOf net.now pairs.now.list routing.now.routes }
    ensures { (p : ℕ) → p < length routing.now.routes → IsFlow net.now (share routing.now.routes p) SHARE_UNIT (source_of routing.now.routes p) (destination_of routing.now.routes p) }
{}

/// A sum over all pairs, whose terms are 0 where the share on the link is, is the sum over the pairs
/// that have a share there.
pub fn sums_over_shares(routing: &Routing, link: u32, list: &[PairShare])
    requires { AreSharesOn routing.now.routes link list.now }
    ensures { (term : ℕ → ℕ) → ((p : ℕ) → p < length routing.now.routes → share routing.now.routes p link ≡ 0 → term p ≡ 0) → sum_below (length routing.now.routes) term ≡ sum_by (λ s. term s.pair) list.now }
{}

/// Every walk has a form without its loops.
pub fn cuts_exist()
    ensures { CutsExist }
{}

/// Every list of weighted paths has a merge.
pub fn merges_exist()
    ensures { MergesExist }
{}

/// One to 4096 paths of a pair have an even mix, which splits the demand of the pair over no more paths.
pub fn even_mixes_exist()
    ensures { EvenMixesExist }
{}

/// Every acyclic flow of one million between two nodes has a decomposition into at most as many paths as the network has links.
pub fn decompositions_exist()
    ensures { DecompositionsExist }
{}
