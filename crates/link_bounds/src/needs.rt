//! A link and its need, and whether a link has a share.
ghost use Rattle.std.specs.Prelude.{◌≡◌, ℕ, List};
ghost use Rattle.te_model.specs.declared.route.PairRoutes.{PairRoutes};
ghost use Rattle.ratio_checker.specs.Shares.{AreSharesOn};
ghost use Rattle.link_bounds.specs.Needs.{has_share};

use ratio_checker::link_pairs::LinkPairs;

/// A link, and its need: the least ratio that its block allows.
#[derive(Clone, Copy)]
pub struct LinkNeed {
    /// A link number.
    pub link: u32,
    /// In millionths.
    pub need: u128,
}

// Whether some pair sends over the link on which these are the shares.
pub fn has_share(shares: &LinkPairs) -> bool
    ensures { (routes : List PairRoutes) (e : ℕ) → AreSharesOn routes e shares.now → result ≡ has_share routes e }
{
    shares.first_share().is_some()
}
