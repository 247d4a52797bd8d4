//! The certificate of the same routing with a lower ratio.
ghost use Rattle.std.specs.Prelude.{◌≡◌, ◌≤◌, All, IfOk, IsTrue, length};
ghost use Rattle.te_model.specs.Network.{is_well_formed, link_count};
ghost use Rattle.te_model.specs.Validity.{IsValid};
ghost use Rattle.best_blocks.specs.Conditions.{IsRoutingWithin, IsSetWithin};
ghost use Rattle.best_blocks.specs.Need.{HasNumbers};
ghost use Rattle.te_model.specs.Feasible.{AreFeasible};
ghost use Rattle.ratio_certificate.specs.Form.{made_set};
ghost use Rattle.ratio_certificate.specs.Made.{IsMade};
ghost use Rattle.ratio_tightening.specs.Polishing.{AreReached, CanPolish, IsDone};
ghost use Rattle.ratio_tightening.specs.Tightened.{lesser_blocks, AreWithinGiven, IsTightened, IsTighter};

use crate::lesser::lesser_blocks;
use crate::offering::{offer_blocks, offer_for_bounds};
use crate::polishing::polish_blocks;
use link_bounds::reprice;
use ratio_certificate::improve;
use routing::Routing;
use std::alloc::Global;
use te_model::{Block, Certificate, DemandSet, Head, Items, Memory, Network};

// A certificate of the routing that is made from its starting weights and from those of the blocks, whichever need less for a link.
fn made_certificate(
    alloc: Global,
    net: &Network,
    routing: &Routing,
    set: DemandSet,
    blocks: &[Block],
) -> Result<Certificate, Memory>
    requires network { IsTrue (is_well_formed net.now) }
    requires links { 1 ≤ link_count net.now }
    requires routing { IsRoutingWithin net.now routing.now.routes }
    requires set { IsSetWithin (length routing.now.routes) set }
    requires blocks { All (HasNumbers net.now) blocks.now }
    ensures made { IfOk result (IsMade net.now routing.now.routes set) }
    ensures within { IfOk result (λ c. AreWithinGiven net.now routing.now.routes (made_set net.now set) blocks.now c.blocks) }
{
    let mut offers = Vec::new(alloc);
    offer_blocks(alloc, &mut offers, net, blocks)?;
    offer_for_bounds(alloc, &mut offers, net, routing, &set)?;
    improve(alloc, net, routing, set, &offers, false)
}

// The made blocks, or the given ones where these need less, polished.
fn polished_lesser(
    alloc: Global,
    net: &Network,
    routing: &Routing,
    set: &DemandSet,
    given: &[Block],
    made: Vec<Block>,
) -> Result<Vec<Block>, Memory>
    requires network { IsTrue (is_well_formed net.now) }
    requires routing { IsRoutingWithin net.now routing.now.routes }
    requires set { IsSetWithin (length routing.now.routes) set.now }
    requires given { All (HasNumbers net.now) given.now }
    requires made { All (HasNumbers net.now) made.items }
    requires can { All (CanPolish net.now routing.now.routes) (lesser_blocks net.now given.now made.items) }
    ensures reached { IfOk result (λ b. AreReached net.now routing.now.routes set.now (lesser_blocks net.now given.now made.items) b.items) }
    ensures done { IfOk result (λ b. IsDone net.now routing.now.routes set.now b.items) }
{
    let mut blocks = lesser_blocks(alloc, net, given, made)?;
    polish_blocks(alloc, net, routing, set, &mut blocks)?;
    Ok(blocks)
}

/// A certificate of the same format, network, routing and set: for each link with a share a best block, or the given one where it needs
/// less, and those that need most polished. The ratio is the greatest of their needs, and so at most the greatest need of the given
/// blocks, whatever the given ratio is: a wrong one of sound blocks is mended.
///
/// `Memory` comes where memory is wanting.
pub fn tighten(alloc: Global, certificate: Certificate) -> Result<Certificate, Memory>
    requires valid { IsValid certificate }
    requires feasible { AreFeasible certificate }
    ensures tightened { IfOk result (IsTightened certificate) }
    ensures tighter { IfOk result (IsTighter certificate) }
{
    let Certificate { head, blocks } = certificate;
    let Head {
        format,
        network,
        routes,
        set,
        ratio,
    } = head;
    let routing = Routing { routes };
    let made = made_certificate(alloc, &network, &routing, set, blocks.as_slice())?;
    let Certificate {
        head: made_head,
        blocks: made_blocks,
    } = made;
    let polished = polished_lesser(
        alloc,
        &network,
        &routing,
        &made_head.set,
        blocks.as_slice(),
        made_blocks.into_vec(),
    )?;
    let with_polished = Certificate {
        head: Head {
            format,
            network,
            routes: routing.routes,
            set: made_head.set,
            ratio,
        },
        blocks: Items::new(polished),
    };
    Ok(reprice(with_polished, made_head.network))
}
