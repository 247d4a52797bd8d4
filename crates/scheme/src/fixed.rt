//! Routings that split each pair's demand by a rule of its own.
ghost use Rattle.std.specs.Prelude.{◌≡◌, ◌^◌, ◌<◌, ◌≤◌, ℕ, List, None, IfOk, IfErr, IfNone, IfSome, IsSomeAnd, OnOk, IsTrue, length, slice_index_or};
ghost use Rattle.te_model.specs.declared.network.Network.{Network};
ghost use Rattle.te_model.specs.declared.route.Pair.{Pair};
ghost use Rattle.te_model.specs.declared.route.PathShare.{PathShare};
ghost use Rattle.te_model.specs.Network.{is_well_formed, node_count};
ghost use Rattle.shortest_path.specs.declared.rows.Direction.TheVariants.{Backward};
ghost use Rattle.shortest_path.specs.Paths.{HasPath};
ghost use Rattle.shortest_path.specs.Rows.{IsSearchGraph};
ghost use Rattle.scheme.specs.Fault.{IsFault};
ghost use Rattle.scheme.specs.Fixed.{IsRoutingBy, IsSplitBy};
ghost use Rattle.scheme.specs.Reach.{AllReached, ArePairsOf, IsPairOf};
ghost use Rattle.scheme.specs.Toward.{AreTowards, sends_to};

use crate::fault::SchemeFault;
use routing::Routing;
use shortest_path::{Direction, Searches};
use std::alloc::Global;
use te_model::{Items, Memory, Network, Pair, PairRoutes, Pairs, PathShare};

/// A rule that splits the demand of a pair over paths, whatever the demand is.
pub trait PairSplit {
    /// What is prepared of a node, for all pairs that send to it.
    type Toward: Drop;

    /// The greatest number of paths of a pair.
    ghost limit: { ℕ };

    /// The rule: what the weighted paths of a pair are.
    ghost splits: { Self → Network → Pair → List PathShare → Type 0 };

    /// What is prepared of a node of the network.
    ghost is_toward: { Self → Network → ℕ → Self.Toward → Type 0 };

    /// Prepares for the pairs that send to `dst`. The searches are against links in the network.
    /// `Memory` comes where memory is wanting.
    fn toward(
        &self,
        alloc: Global,
        net: &Network,
        searches: &mut Searches,
        dst: u32,
    ) -> Result<Self::Toward, Memory>
        requires network { IsTrue (is_well_formed net.now) }
        requires against { IsSearchGraph net.now Backward searches.old }
        requires dst { dst < node_count net.now }
        ensures toward { IfOk result (is_toward self.now net.now dst) }
        ensures same { searches.new ≡ searches.old };

    /// The weighted paths of the pair, or `None` exactly where no path leads from its source to its
    /// destination, of which `toward` is prepared. `Memory` comes where memory is wanting.
    fn split(
        &self,
        alloc: Global,
        net: &Network,
        toward: &Self::Toward,
        pair: Pair,
    ) -> Result<Option<Vec<PathShare>>, Memory>
        requires network { IsTrue (is_well_formed net.now) }
        requires pair { IsPairOf net.now pair }
        requires toward { is_toward self.now net.now pair.dst toward.now }
        ensures none { IfOk result (λ o. IfNone o (HasPath net.now pair.src pair.dst → ⊥)) }
        ensures some { IfOk result (λ o. IfSome o (λ paths. IsSplitBy (splits self.now) limit net.now (record { pair = pair; paths = paths.items }))) };
}

/// Whether a pair sends to the node.
fn sends_to(pairs: &[Pair], node: u32) -> bool
    ensures { result ≡ sends_to pairs.now node }
{
    pairs.iter().any(|pair| pair.dst == node)
}

/// What the rule prepares of each node to which a pair sends: one search a node, not one a pair.
fn towards_of<S: PairSplit>(
    alloc: Global,
    rule: &S,
    net: &Network,
    pairs: &[Pair],
) -> Result<Vec<Option<S::Toward>>, Memory>
    requires { IsTrue (is_well_formed net.now) }
    ensures { IfOk result (λ t. AreTowards (S.is_toward rule.now net.now) (node_count net.now) pairs.now t.items) }
{
    let mut searches = Searches::new(alloc, net, Direction::Backward)?;
    let mut towards = Vec::new(alloc);
    for node in 0..net.names.as_slice().len() {
        if sends_to(pairs, node as u32) {
            let toward = rule.toward(alloc, net, &mut searches, node as u32)?;
            towards.push(Some(toward))?;
        } else {
            towards.push(None)?;
        }
    }
    Ok(towards)
}

/// The weighted paths of the pair, by what is prepared of its destination.
fn split_toward<S: PairSplit>(
    alloc: Global,
    rule: &S,
    net: &Network,
    towards: &[Option<S::Toward>],
    pair: Pair,
) -> Result<Option<Vec<PathShare>>, Memory>
    requires network { IsTrue (is_well_formed net.now) }
    requires pair { IsPairOf net.now pair }
    requires inside { pair.dst < length towards.now }
    requires prepared { IsSomeAnd (slice_index_or towards.now pair.dst None) (S.is_toward rule.now net.now pair.dst) }
    ensures none { IfOk result (λ o. IfNone o (HasPath net.now pair.src pair.dst → ⊥)) }
    ensures some { IfOk result (λ o. IfSome o (λ paths. IsSplitBy (S.splits rule.now) S.limit net.now (record { pair = pair; paths = paths.items }))) }
{
    match &towards[pair.dst as usize] {
        Some(toward) => rule.split(alloc, net, toward, pair),
        None => Ok(None),
    }
}

/// The routing of the pairs by the rule.
///
/// `NoPath` names the first pair without a path, exactly where there is one, and `Memory` comes
/// where memory is wanting.
pub fn fixed_routing<S: PairSplit>(
    alloc: Global,
    rule: &S,
    net: &Network,
    pairs: &Pairs,
) -> Result<Routing, SchemeFault>
    requires network { IsTrue (is_well_formed net.now) }
    requires pairs { ArePairsOf net.now pairs.now.list }
    ensures routing { IfOk result (λ r. IsRoutingBy (S.splits rule.now) S.limit net.now pairs.now.list r.routes) }
    ensures reached { OnOk result (AllReached net.now pairs.now.list) }
    ensures fault { IfErr result (IsFault net.now pairs.now.list) }
{
    let list = pairs.list.as_slice();
    let towards = towards_of(alloc, rule, net, list)?;
    let mut routes = Vec::new(alloc);
    for p in 0..list.len() {
        let pair = list[p];
        match split_toward(alloc, rule, net, &towards, pair)? {
            Some(paths) => {
                let paths = Items::new(paths);
                routes.push(PairRoutes { pair, paths })?;
            }
            None => return Err(SchemeFault::NoPath(p as u32)),
        }
    }
    Ok(Routing {
        routes: Items::new(routes),
    })
}
