//! Laws of needs and of repriced certificates. Each is the contract of a function that does nothing.
ghost use Rattle.link_bounds.specs.Laws.{LastRepricingCounts, RepricedHolds, RepricingKeepsFailures, RepricingKeepsValidity, RepricingLowersRatio};
ghost use Rattle.link_bounds.specs.Proved.{NeedsAreProved, NeedsAreWithinRatio};
ghost use Rattle.link_bounds.specs.SameLinks.{SameLinksAreDecided};

/// The test of the same links decides whether two networks have the same nodes by name and the same links by their ends, in order.
pub fn same_links_are_decided()
    ensures { SameLinksAreDecided }
{}

/// Where the first three inequalities hold each need is a ratio of its link, and the greatest is one of the routing (Applegate and
/// Cohen, 2003). Where the fourth holds too, none is above the ratio of the certificate.
pub fn needs_are_proved()
    ensures proved { NeedsAreProved }
    ensures within { NeedsAreWithinRatio }
{}

/// A repriced certificate is valid, and of its inequalities the first of I1 to I3 that fails is that of the certificate: capacities and
/// costs stand in none of them, and its ratio pays. On its own network its ratio is no greater than one that holds, and of two repricings
/// the last one counts.
pub fn repricing_keeps_what_is_proved()
    ensures valid { RepricingKeepsValidity }
    ensures failures { RepricingKeepsFailures }
    ensures holds { RepricedHolds }
    ensures lowers { RepricingLowersRatio }
    ensures last { LastRepricingCounts }
{}
