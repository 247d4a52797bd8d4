//! Weights that are offered for the blocks of links.
ghost use Rattle.std.specs.Prelude.{◌≡◌, ◌≤◌, IfOk, OnOk, length};
ghost use Rattle.ratio_certificate.specs.Offering.{AreOffersOf, NeedsNoMoreThanOffer, NeedsNoMoreThanOffers};
ghost use Rattle.ratio_certificate.specs.Offers.{AreOffers};
ghost use Rattle.ratio_certificate.specs.Problems.{IsLinkOf, IsProblem, IsWeightingOf};
ghost use Rattle.ratio_certificate.specs.Weighting.{AreWeights};

use crate::problem::Problem;
use crate::weighting::{Weighting, keep_lesser, weighting_of};
use best_blocks::{SharedLink, metric_of};
use std::alloc::Global;
use te_model::{Items, Memory};

/// Weights that are offered for the block of a link.
#[derive(Drop)]
pub struct Offer {
    /// The number of the link.
    pub link: u32,
    /// One weight for each link of the network.
    pub weights: Items<u64>,
}

/// The weights on the link, and what they need there.
fn weighting_from(
    alloc: Global,
    problem: &Problem,
    shared: &SharedLink,
    weights: &[u64],
) -> Result<Weighting, Memory>
    requires problem { IsProblem problem.now }
    requires shared { IsLinkOf problem.now shared.now }
    requires weights { AreWeights problem.now.net.now weights.now }
    ensures link { IfOk result (λ w. w.link ≡ shared.now.link) }
    ensures weights { IfOk result (λ w. w.weights ≡ weights.now) }
    ensures weighting { IfOk result (IsWeightingOf problem.now) }
{
    let copied = Vec::from_slice(alloc, weights)?;
    let metric = metric_of(
        alloc,
        problem.net,
        problem.routing,
        shared.marks.as_slice(),
        copied,
    )?;
    weighting_of(alloc, problem, shared, &metric)
}

/// Puts the weights of the offer in place of the best ones, if it is for the link and they need less.
fn take_offer(
    alloc: Global,
    problem: &Problem,
    shared: &SharedLink,
    offer: &Offer,
    best: &mut Weighting,
) -> Result<(), Memory>
    requires problem { IsProblem problem.now }
    requires shared { IsLinkOf problem.now shared.now }
    requires offer { AreWeights problem.now.net.now offer.now.weights }
    requires best { IsWeightingOf problem.now best.old }
    requires link { best.old.link ≡ shared.now.link }
    ensures link { OnOk result (best.new.link ≡ shared.now.link) }
    ensures best { OnOk result (IsWeightingOf problem.now best.new) }
    ensures no_more { OnOk result (best.new.need ≤ best.old.need) }
    ensures offer { OnOk result (NeedsNoMoreThanOffer problem.now.net.now problem.now.routing.now.routes problem.now.set.now offer.now best.new) }
{
    if offer.link != shared.link {
        return Ok(());
    }
    let found = weighting_from(alloc, problem, shared, offer.weights.as_slice())?;
    keep_lesser(best, found);
    Ok(())
}

/// Puts the weights of each offer for the link in place of the best ones, if they need less.
pub fn take_offers(
    alloc: Global,
    problem: &Problem,
    shared: &SharedLink,
    offers: &[Offer],
    best: &mut Weighting,
) -> Result<(), Memory>
    requires problem { IsProblem problem.now }
    requires shared { IsLinkOf problem.now shared.now }
    requires offers { AreOffers problem.now.net.now offers.now }
    requires best { IsWeightingOf problem.now best.old }
    requires link { best.old.link ≡ shared.now.link }
    ensures link { OnOk result (best.new.link ≡ shared.now.link) }
    ensures best { OnOk result (IsWeightingOf problem.now best.new) }
    ensures no_more { OnOk result (best.new.need ≤ best.old.need) }
    ensures offers { OnOk result (NeedsNoMoreThanOffers (length offers.now) problem.now.net.now problem.now.routing.now.routes problem.now.set.now offers.now best.new) }
{
    for offer in offers {
        take_offer(alloc, problem, shared, offer, best)?;
    }
    Ok(())
}

/// The weights as offers for their links.
pub fn offers_of(alloc: Global, list: &[Weighting]) -> Result<Vec<Offer>, Memory>
    ensures { IfOk result (λ o. AreOffersOf (length list.now) list.now o.items) }
{
    let mut offers = Vec::with_capacity(alloc, list.len())?;
    for weighting in list {
        let weights = Vec::from_slice(alloc, weighting.weights.as_slice())?;
        offers.push(Offer {
            link: weighting.link,
            weights: Items::new(weights),
        })?;
    }
    Ok(offers)
}
