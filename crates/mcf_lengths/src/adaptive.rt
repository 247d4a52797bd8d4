//! Multicommodity flow keeps no set of paths: it routes each matrix over any.
ghost use Rattle.std.specs.Prelude.{None};
ghost use Rattle.scheme.specs.Adaptive.{AreGivenRates};

use crate::flow::{Mcf, McfPlan};
use routing::Routing;
use scheme::{Adaptive, given_rates};
use std::alloc::Global;
use te_model::{Matrix, Memory, Network};

impl Adaptive for Mcf {
    ghost use Rattle.std.proofs.lemmas.Option.{none-some};

    ghost path_set_routes = { λ _ _. None };

    ghost adapts = { λ _ _ given _ routes low. AreGivenRates given routes low };

    fn adapt_rates(
        &self,
        alloc: Global,
        _net: &Network,
        given: &Routing,
        _matrix: &Matrix,
    ) -> Result<(Routing, Option<u128>), Memory> {
        given_rates(alloc, given)
    }

    fn path_set<'a>(&self, _plan: &'a McfPlan) -> Option<&'a Routing> {
        None
    }

    ghost path_set_routing = { λ s net pairs plan routes is set. absurd (none-some routes set) };

    ghost path_set_few = { λ s net pairs plan routes is set. absurd (none-some routes set) };
}
