//! The making of certificates.
ghost use Rattle.std.specs.Prelude.{◌≡◌, ◌*◌, ◌^◌, ◌≤◌, IfOk, IfSome, IsTrue, OnOk, length};
ghost use Rattle.te_model.specs.Network.{is_well_formed, link_count};
ghost use Rattle.routing.specs.Shares.{AreShares};
ghost use Rattle.shortest_path.specs.declared.rows.Direction.TheVariants.{Forward};
ghost use Rattle.shortest_path.specs.Rows.{IsSearchGraph};
ghost use Rattle.best_blocks.specs.Best.{IsBestBlock};
ghost use Rattle.best_blocks.specs.Conditions.{IsRoutingWithin, IsSetWithin};
ghost use Rattle.ratio_certificate.specs.Form.{made_set, HasBounds, IsFormatFor};
ghost use Rattle.ratio_certificate.specs.Made.{IsMade, IsMadeIn};
ghost use Rattle.ratio_certificate.specs.Making.{head_with, AreBlocksOf, AreMadeBlocks, ArePaidBy, AreSharedLinks};
ghost use Rattle.ratio_certificate.specs.Offering.{AreOffersFor, AreOffersOfAll, ArePolishedFrom, AreStarts, NeedsNoMoreThanOffers};
ghost use Rattle.ratio_certificate.specs.Offers.{AreOffers, AreWithinAllMatrices, AreWithinOffers};
ghost use Rattle.ratio_certificate.specs.Polished.{IsPolished};
ghost use Rattle.ratio_certificate.specs.Problems.{AreLinksOf, AreWeightingsOf, IsDoneOf, IsLinkOf, IsMetricOf, IsProblem, IsWeightingOf};
ghost use Rattle.ratio_certificate.specs.Rising.{NeedsNoMore};
ghost use Rattle.ratio_certificate.specs.Weighting.{AreWeights};

use crate::form::{made_format, set_in};
use crate::offers::{Offer, offers_of, take_offers};
use crate::polish::{metric_by, polish};
use crate::problem::Problem;
use crate::rounds::{best_round, starting_metric};
use crate::search::search;
use crate::weighting::Weighting;
use best_blocks::{Metric, SharedLink, best_block, greatest_need, shared_link};
use routing::{Routing, Shares};
use shortest_path::{Direction, Searches};
use std::alloc::Global;
use te_model::{Block, Certificate, DemandSet, Head, Items, Memory, Network, copy_network};

/// The links on which there is a share, ascending.
fn shared_links(
    alloc: Global,
    problem: &Problem,
    shares: &Shares,
) -> Result<Vec<SharedLink>, Memory>
    requires problem { IsProblem problem.now }
    requires shares { AreShares problem.now.net.now problem.now.routing.now.routes shares.now }
    ensures { IfOk result (λ l. AreSharedLinks (link_count problem.now.net.now) problem.now.net.now problem.now.routing.now.routes problem.now.set.now l.items) }
{
    let mut links = Vec::new(alloc);
    for e in 0..problem.net.links.as_slice().len() {
        let list = shares.on(e as u32);
        if list.len() > 0 {
            let link = shared_link(
                alloc,
                problem.net,
                problem.routing,
                problem.set,
                e as u32,
                list,
            )?;
            links.push(link)?;
        }
    }
    Ok(links)
}

/// The links with a share in the routing of the problem.
fn links_of(alloc: Global, problem: &Problem) -> Result<Vec<SharedLink>, Memory>
    requires problem { IsProblem problem.now }
    ensures { IfOk result (λ l. AreSharedLinks (link_count problem.now.net.now) problem.now.net.now problem.now.routing.now.routes problem.now.set.now l.items) }
{
    let shares = Shares::new(alloc, problem.net, problem.routing)?;
    shared_links(alloc, problem, &shares)
}

/// Weights of the link from which the search starts: those of its best round, or of an offer where these need less. The searches, if
/// there are some, are along links in the network.
fn best_start(
    alloc: Global,
    problem: &Problem,
    shared: &SharedLink,
    offers: &[Offer],
    searches: &mut Option<Searches>,
) -> Result<Weighting, Memory>
    requires problem { IsProblem problem.now }
    requires shared { IsLinkOf problem.now shared.now }
    requires offers { AreOffers problem.now.net.now offers.now }
    requires along { IfSome searches.old (IsSearchGraph problem.now.net.now Forward) }
    ensures link { IfOk result (λ w. w.link ≡ shared.now.link) }
    ensures weighting { IfOk result (IsWeightingOf problem.now) }
    ensures least { IfOk result (NeedsNoMore problem.now.net.now problem.now.routing.now.routes problem.now.set.now shared.now.link 15) }
    ensures small { IfOk result (λ w. w.need ≤ 1000000 * 2 ^ 42) }
    ensures offers { IfOk result (NeedsNoMoreThanOffers (length offers.now) problem.now.net.now problem.now.routing.now.routes problem.now.set.now offers.now) }
    ensures along { OnOk result (IfSome searches.new (IsSearchGraph problem.now.net.now Forward)) }
{
    let mut best = best_round(alloc, problem, shared, searches)?;
    take_offers(alloc, problem, shared, offers, &mut best)?;
    Ok(best)
}

/// Weights of each of the links from which the search starts. The rounds of a link search each row in the order of the link before.
fn starts(
    alloc: Global,
    problem: &Problem,
    links: &[SharedLink],
    offers: &[Offer],
) -> Result<Vec<Weighting>, Memory>
    requires links { AreLinksOf problem.now links.now }
    requires offers { AreOffers problem.now.net.now offers.now }
    ensures { IfOk result (λ l. AreStarts (length links.now) problem.now.net.now problem.now.routing.now.routes problem.now.set.now links.now offers.now l.items) }
{
    let searches = Searches::with_orders(alloc, problem.net, Direction::Forward)?;
    let mut kept = Some(searches);
    let mut list = Vec::with_capacity(alloc, links.len())?;
    for shared in links {
        let weighting = best_start(alloc, problem, shared, offers, &mut kept)?;
        list.push(weighting)?;
    }
    Ok(list)
}

/// Puts weights that are searched for, and then polished, in place of those of the links.
fn search_and_polish(
    alloc: Global,
    problem: &Problem,
    links: &[SharedLink],
    weightings: &mut [Weighting],
) -> Result<(), Memory>
    requires links { AreLinksOf problem.now links.now }
    requires weightings { AreWeightingsOf problem.now links.now weightings.old weightings.old }
    ensures weightings { OnOk result (AreWeightingsOf problem.now links.now weightings.old weightings.new) }
    ensures done { OnOk result (IsDoneOf problem.now weightings.new) }
{
    search(alloc, problem, links, weightings)?;
    polish(alloc, problem, links, weightings)?;
    Ok(())
}

/// Polished weights of each of the links.
fn polished_weightings(
    alloc: Global,
    problem: &Problem,
    links: &[SharedLink],
    offers: &[Offer],
) -> Result<Vec<Weighting>, Memory>
    requires links { AreLinksOf problem.now links.now }
    requires offers { AreOffers problem.now.net.now offers.now }
    ensures { IfOk result (λ l. ArePolishedFrom problem.now.net.now problem.now.routing.now.routes problem.now.set.now links.now offers.now l.items) }
{
    let mut list = starts(alloc, problem, links, offers)?;
    search_and_polish(alloc, problem, links, &mut list)?;
    Ok(list)
}

/// What stands for a block that is not there.
fn no_block(alloc: Global) -> Block {
    Block {
        link: 0,
        a: 0,
        b: 1,
        weights: Items::new(Vec::new(alloc)),
        rows: Items::new(Vec::new(alloc)),
        plus: Items::new(Vec::new(alloc)),
        minus: Items::new(Vec::new(alloc)),
    }
}

/// The best block under the metric, of which there is one, since its weights are 1 and more.
fn block_under(
    alloc: Global,
    problem: &Problem,
    shared: &SharedLink,
    metric: &Metric,
) -> Result<Block, Memory>
    requires problem { IsProblem problem.now }
    requires shared { IsLinkOf problem.now shared.now }
    requires metric { IsMetricOf problem.now shared.now metric.now }
    requires weights { AreWeights problem.now.net.now metric.now.weights }
    ensures { IfOk result (IsBestBlock problem.now.net.now problem.now.routing.now.routes problem.now.set.now shared.now.link metric.now.weights) }
{
    match best_block(
        alloc,
        problem.net,
        problem.routing,
        problem.set,
        shared,
        metric,
    )? {
        Some(block) => Ok(block),
        None => Ok(no_block(alloc)),
    }
}

/// The best block of the weights. The searches are along links in the network.
fn block_of(
    alloc: Global,
    problem: &Problem,
    shared: &SharedLink,
    searches: &mut Searches,
    weighting: &Weighting,
) -> Result<Block, Memory>
    requires problem { IsProblem problem.now }
    requires shared { IsLinkOf problem.now shared.now }
    requires along { IsSearchGraph problem.now.net.now Forward searches.old }
    requires weighting { IsWeightingOf problem.now weighting.now }
    requires link { weighting.now.link ≡ shared.now.link }
    ensures best { IfOk result (IsBestBlock problem.now.net.now problem.now.routing.now.routes problem.now.set.now weighting.now.link weighting.now.weights) }
    ensures same { searches.new ≡ searches.old }
{
    let metric = metric_by(alloc, problem, shared, searches, weighting)?;
    block_under(alloc, problem, shared, &metric)
}

/// The best block of each of the weights.
fn blocks_of(
    alloc: Global,
    problem: &Problem,
    links: &[SharedLink],
    list: &[Weighting],
) -> Result<Vec<Block>, Memory>
    requires links { AreLinksOf problem.now links.now }
    requires list { AreWeightingsOf problem.now links.now list.now list.now }
    ensures { IfOk result (λ b. AreBlocksOf (length list.now) problem.now.net.now problem.now.routing.now.routes problem.now.set.now list.now b.items) }
{
    let mut searches = Searches::with_orders(alloc, problem.net, Direction::Forward)?;
    let mut blocks = Vec::with_capacity(alloc, list.len())?;
    for k in 0..list.len() {
        let block = block_of(alloc, problem, &links[k], &mut searches, &list[k])?;
        blocks.push(block)?;
    }
    Ok(blocks)
}

/// Polished best blocks of the links with a share, ascending.
fn polished_blocks(alloc: Global, problem: &Problem, offers: &[Offer]) -> Result<Vec<Block>, Memory>
    requires problem { IsProblem problem.now }
    requires offers { AreOffers problem.now.net.now offers.now }
    ensures made { IfOk result (λ b. AreMadeBlocks problem.now.net.now problem.now.routing.now.routes problem.now.set.now b.items) }
    ensures polished { IfOk result (λ b. IsPolished problem.now.net.now problem.now.routing.now.routes problem.now.set.now b.items) }
    ensures small { IfOk result (λ b. ArePaidBy (1000000 * 2 ^ 42) problem.now.net.now b.items) }
    ensures within { IfOk result (λ b. AreWithinOffers problem.now.net.now problem.now.routing.now.routes problem.now.set.now offers.now b.items) }
{
    let links = links_of(alloc, problem)?;
    let list = polished_weightings(alloc, problem, &links, offers)?;
    blocks_of(alloc, problem, &links, &list)
}

/// The head of a certificate, with copies of the network and the routes.
fn head_of(
    alloc: Global,
    net: &Network,
    routing: &Routing,
    set: DemandSet,
    format: u32,
    ratio: u64,
) -> Result<Head, Memory>
    ensures { IfOk result (λ h. h ≡ head_with format net.now routing.now.routes set ratio) }
{
    let network = copy_network(alloc, net)?;
    let routes = routing.copy(alloc)?.routes;
    Ok(Head {
        format,
        network,
        routes,
        set,
        ratio,
    })
}

/// A certificate of this format, which has room for the network, and sets of this form.
fn certify(
    alloc: Global,
    net: &Network,
    routing: &Routing,
    set: DemandSet,
    format: u32,
    offers: &[Offer],
    near_offers: bool,
) -> Result<Certificate, Memory>
    requires network { IsTrue (is_well_formed net.now) }
    requires links { 1 ≤ link_count net.now }
    requires routing { IsRoutingWithin net.now routing.now.routes }
    requires set { IsSetWithin (length routing.now.routes) set }
    requires format { IsFormatFor net.now set format }
    requires offers { AreOffers net.now offers.now }
    ensures made { IfOk result (IsMadeIn format net.now routing.now.routes set) }
    ensures within { IfOk result (λ c. AreWithinOffers net.now routing.now.routes set offers.now c.blocks) }
{
    let first = starting_metric(alloc, net, routing)?;
    let problem = Problem {
        net,
        routing,
        set: &set,
        first: &first,
        near_offers,
    };
    let blocks = polished_blocks(alloc, &problem, offers)?;
    let ratio = greatest_need(net, &blocks) as u64;
    let head = head_of(alloc, net, routing, set, format, ratio)?;
    Ok(Certificate {
        head,
        blocks: Items::new(blocks),
    })
}

/// What `make` gives, where weights are offered for the blocks of links: no block needs more than the best block of each of
/// the weights that are offered for its link. Where they may be near the best ones (`near_offers`) the search is shorter: it goes
/// on by small steps from weights that need little more than those of the links before.
///
/// Each offer has a weight from 1 to 2^28 for each link of the network. `Memory` comes where memory is wanting.
pub fn improve(
    alloc: Global,
    net: &Network,
    routing: &Routing,
    set: DemandSet,
    offers: &[Offer],
    near_offers: bool,
) -> Result<Certificate, Memory>
    requires network { IsTrue (is_well_formed net.now) }
    requires links { 1 ≤ link_count net.now }
    requires routing { IsRoutingWithin net.now routing.now.routes }
    requires set { IsSetWithin (length routing.now.routes) set }
    requires offers { AreOffers net.now offers.now }
    ensures made { IfOk result (IsMade net.now routing.now.routes set) }
    ensures within { IfOk result (λ c. AreWithinOffers net.now routing.now.routes (made_set net.now set) offers.now c.blocks) }
{
    let format = made_format(net, &set);
    let written = set_in(alloc, format, set)?;
    certify(alloc, net, routing, written, format, offers, near_offers)
}

/// The weights that are found for all matrices, as offers for their links.
fn offers_of_all(alloc: Global, net: &Network, routing: &Routing) -> Result<Vec<Offer>, Memory>
    requires network { IsTrue (is_well_formed net.now) }
    requires links { 1 ≤ link_count net.now }
    requires routing { IsRoutingWithin net.now routing.now.routes }
    ensures weights { IfOk result (λ o. AreOffers net.now o.items) }
    ensures all_matrices { IfOk result (λ o. AreOffersOfAll net.now routing.now.routes o.items) }
{
    let set = DemandSet::All;
    let first = starting_metric(alloc, net, routing)?;
    let problem = Problem {
        net,
        routing,
        set: &set,
        first: &first,
        near_offers: false,
    };
    let links = links_of(alloc, &problem)?;
    let list = polished_weightings(alloc, &problem, &links, &[])?;
    offers_of(alloc, &list)
}

/// The offers for a set: between bounds the weights that are found for all matrices.
fn offers_for(
    alloc: Global,
    net: &Network,
    routing: &Routing,
    set: &DemandSet,
) -> Result<Vec<Offer>, Memory>
    requires network { IsTrue (is_well_formed net.now) }
    requires links { 1 ≤ link_count net.now }
    requires routing { IsRoutingWithin net.now routing.now.routes }
    ensures { IfOk result (λ o. AreOffersFor net.now routing.now.routes set.now o.items) }
{
    match set {
        DemandSet::All => Ok(Vec::new(alloc)),
        DemandSet::Margin { .. } => offers_of_all(alloc, net, routing),
        DemandSet::Box { .. } => offers_of_all(alloc, net, routing),
    }
}

/// A certificate of the routing's oblivious ratio over the matrices of the set: for each link with a share the best block of
/// its best round (multiplicative weights; Plotkin, Shmoys and Tardos, 1995), or of weights that were sought for the links whose
/// blocks need most, polished, and the greatest of their needs as the ratio (after Applegate and Cohen, 2003). Between bounds no
/// block needs more than by the weights that are found for all matrices.
///
/// It is one of the first format where the network has at most 64 nodes and 512 links and the set is no box, and else of the
/// second, in which a margin stands as its box. `Memory` comes where memory is wanting.
pub fn make(
    alloc: Global,
    net: &Network,
    routing: &Routing,
    set: DemandSet,
) -> Result<Certificate, Memory>
    requires network { IsTrue (is_well_formed net.now) }
    requires links { 1 ≤ link_count net.now }
    requires routing { IsRoutingWithin net.now routing.now.routes }
    requires set { IsSetWithin (length routing.now.routes) set }
    ensures made { IfOk result (IsMade net.now routing.now.routes set) }
    ensures all_matrices { IfOk result (λ c. HasBounds set → AreWithinAllMatrices net.now routing.now.routes (made_set net.now set) c.blocks) }
{
    let offers = offers_for(alloc, net, routing, &set)?;
    improve(alloc, net, routing, set, &offers, false)
}
