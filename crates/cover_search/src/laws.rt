//! A law of covers. A law of the definitions is the contract of a function that does nothing.
ghost use Rattle.cover_search.specs.Transport.{SettledCoversComeToAmounts};

/// Where nothing is left to be sent by a tail above 0, the numbers come to what the shares come to by what goes over them, so no
/// numbers that cover come to less.
pub fn settled_covers_come_to_amounts()
    ensures { SettledCoversComeToAmounts }
{}
