//! Recoveries by their words in a plan.

ghost use Rattle.std.specs.Prelude.{◌≡◌};
ghost use Rattle.plan.specs.Words.{recovery_named};

/// What is done with the paths of a routing when links fail.
#[derive(Clone, Copy, Debug, PartialEq, Eq)]
pub enum Recovery {
    /// `none`: the routing is kept.
    Keep,
    /// `scale`: failed paths are dropped, and the weights of the others are scaled up.
    Scale,
    /// `bypass`: failed links are replaced by a way round them.
    Bypass,
    /// `reroute`: the scheme is prepared anew on the network that is left.
    Reroute,
    /// `adapt`: a scheme that keeps a set of paths for all matrices chooses its rates anew over those that have not failed; every other
    /// scheme does as under `scale`.
    Adapt,
}

impl Recovery {
    /// The recovery of a word, where there is one.
    pub fn from_word(text: &str) -> Option<Recovery>
        ensures { result ≡ recovery_named text.now }
    {
        if text == "none" {
            Some(Recovery::Keep)
        } else if text == "scale" {
            Some(Recovery::Scale)
        } else if text == "bypass" {
            Some(Recovery::Bypass)
        } else if text == "reroute" {
            Some(Recovery::Reroute)
        } else if text == "adapt" {
            Some(Recovery::Adapt)
        } else {
            None
        }
    }
}
