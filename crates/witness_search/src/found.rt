//! The matrices that are found for a certificate.
ghost use Rattle.std.specs.Prelude.{◌≡◌, All, IfOk, length};
ghost use Rattle.te_model.specs.Validity.{IsValid};
ghost use Rattle.worst_matrices.specs.Members.{IsScaledMember};
ghost use Rattle.witness_search.specs.Challenge.{found_tried};

use crate::attempt::Tried;
use crate::candidates::copy_of;
use routing::Routing;
use std::alloc::Global;
use te_model::{Certificate, Head, Memory};
use worst_matrices::{ScaledMatrix, worst_matrices};

/// The head of a certificate, and matrices of its set.
#[derive(Drop)]
pub struct Found {
    pub head: Head,
    pub matrices: Vec<ScaledMatrix>,
}

/// What is tried of a matrix that is found. `Memory` comes where memory is wanting.
pub fn tried_of(alloc: Global, matrix: &ScaledMatrix) -> Result<Tried, Memory>
    ensures { IfOk result (λ t. t ≡ found_tried matrix.now) }
{
    let demand = copy_of(alloc, &matrix.demand)?;
    Ok(Tried {
        place: 0,
        demand,
        x: matrix.x,
        y: matrix.y,
    })
}

/// The worst matrices that are found for the link of the certificate whose block needs most. `Memory` comes where memory is wanting.
pub fn found_for(alloc: Global, certificate: Certificate) -> Result<Found, Memory>
    requires { IsValid certificate }
    ensures head { IfOk result (λ f. f.head ≡ certificate.head) }
    ensures matrices { IfOk result (λ f. All (IsScaledMember certificate.head.set (length certificate.head.routes)) f.matrices.items) }
{
    let Certificate { head, blocks } = certificate;
    let routing = Routing {
        routes: head.routes,
    };
    let matrices = worst_matrices(alloc, &head.network, &routing, &head.set, blocks.as_slice())?;
    let head = Head {
        routes: routing.routes,
        ..head
    };
    Ok(Found { head, matrices })
}
