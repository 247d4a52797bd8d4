//! Links on which pairs have shares.
ghost use Rattle.std.specs.Prelude.{◌≡◌, ◌<◌, ℕ, IfOk, IsTrue, length, slice_index};
ghost use Rattle.te_model.specs.Laws.{PairsJoinNodes};
ghost use Rattle.te_model.specs.Network.{is_well_formed, link_count, node_count};
ghost use Rattle.te_model.specs.Path.{share, source_of};
ghost use Rattle.routing.specs.Shares.{AreSharesOn};
ghost use Rattle.shortest_path.specs.Pairs.{AreValues};
ghost use Rattle.best_blocks.specs.Best.{needs_row};
ghost use Rattle.best_blocks.specs.Conditions.{IsRoutingWithin};
ghost use Rattle.best_blocks.specs.Marks.{AreSourceMarks};
ghost use Rattle.best_blocks.specs.Sharing.{HasShare, IsSharedLink};

use routing::{PairShare, Routing, Shares};
use std::alloc::Global;
use te_model::{DemandSet, Items, Memory, Network};

/// A link on which pairs have shares, and the nodes that need a row there.
#[derive(Drop)]
pub struct SharedLink {
    /// The number of the link.
    pub link: u32,
    /// The pairs that have a share, ascending, each with its share.
    pub list: Items<PairShare>,
    /// The share of each pair.
    pub shares: Items<u64>,
    /// For each node whether it is the source of a pair that needs a row.
    pub marks: Items<bool>,
}

/// Whether the source of a pair with this share has a row.
fn needs_row(set: &DemandSet, share: u64) -> bool
    ensures { result ≡ needs_row set.now share }
{
    match set {
        DemandSet::All => share > 0,
        DemandSet::Margin { .. } => true,
        DemandSet::Box { .. } => true,
    }
}

/// Which nodes are the source of a pair that needs a row.
fn sources_of(
    alloc: Global,
    nodes: usize,
    routing: &Routing,
    set: &DemandSet,
    shares: &[u64],
) -> Result<Vec<bool>, Memory>
    requires shares { length shares.now ≡ length routing.now.routes }
    requires pairs { (p : ℕ) → p < length routing.now.routes → source_of routing.now.routes p < nodes }
    ensures { IfOk result (λ m. AreSourceMarks nodes (length routing.now.routes) routing.now.routes set.now (slice_index shares.now) m.items) }
{
    let routes = routing.routes.as_slice();
    let mut marks = vec![in alloc; false; nodes]?;
    for p in 0..routes.len() {
        if needs_row(set, shares[p]) {
            marks[routes[p].pair.src as usize] = true;
        }
    }
    Ok(marks)
}

/// The share of each pair on the link, by the pairs that have one there.
fn shares_by(
    alloc: Global,
    routing: &Routing,
    link: u32,
    list: &[PairShare],
) -> Result<Vec<u64>, Memory>
    requires { AreSharesOn routing.now.routes link list.now }
    ensures { IfOk result (λ s. AreValues (length routing.now.routes) (λ p. share routing.now.routes p link) s.items) }
{
    let mut shares = vec![in alloc; 0; routing.routes.as_slice().len()]?;
    for entry in list {
        shares[entry.pair as usize] = entry.share;
    }
    Ok(shares)
}

/// The link, by the pairs that have a share there, of which there is at least one.
pub fn shared_link(
    alloc: Global,
    net: &Network,
    routing: &Routing,
    set: &DemandSet,
    link: u32,
    list: &[PairShare],
) -> Result<SharedLink, Memory>
    requires nodes { PairsJoinNodes net.now routing.now.routes }
    requires link { link < link_count net.now }
    requires list { AreSharesOn routing.now.routes link list.now }
    requires some { 0 < length list.now }
    ensures link { IfOk result (λ l. l.link ≡ link) }
    ensures shared { IfOk result (IsSharedLink net.now routing.now.routes set.now) }
{
    let nodes = net.names.as_slice().len();
    let shares = shares_by(alloc, routing, link, list)?;
    let marks = sources_of(alloc, nodes, routing, set, &shares)?;
    let copied = Vec::from_slice(alloc, list)?;
    Ok(SharedLink {
        link,
        list: Items::new(copied),
        shares: Items::new(shares),
        marks: Items::new(marks),
    })
}

/// The link, on which some share is above 0, with the shares that the pairs have there. `Memory` comes where memory is wanting.
pub fn link_with_shares(
    alloc: Global,
    net: &Network,
    routing: &Routing,
    set: &DemandSet,
    link: u32,
) -> Result<SharedLink, Memory>
    requires routing { IsRoutingWithin net.now routing.now.routes }
    requires some { HasShare routing.now.routes link }
    ensures link { IfOk result (λ l. l.link ≡ link) }
    ensures shared { IfOk result (IsSharedLink net.now routing.now.routes set.now) }
{
    let all = Shares::new(alloc, net, routing)?;
    shared_link(alloc, net, routing, set, link, all.on(link))
}
