//! Laws of rates that survive failed links. A law of the definitions is the contract of a function that does nothing.
ghost use Rattle.fault_rates.specs.Answers.{AnswersExist};
ghost use Rattle.fault_rates.specs.File.{FilesOfRates, RateTextsAreShort};
ghost use Rattle.fault_rates.specs.Laws.{EvenGuards, EvenProtectionsExist, GuardedGrantsSurvive};
ghost use Rattle.fault_rates.specs.Making.{ProtectionsExist};
ghost use Rattle.fault_rates.specs.Reading.{KeptHasSameFault, RatesHaveOneMeaning};
ghost use Rattle.fault_rates.specs.Verdict.{GuardedIsFaultless};

/// Where the allocations fit and each grant is guarded, the grants survive the failure of any links, no more than so many.
pub fn guarded_grants_survive()
    ensures { GuardedGrantsSurvive }
{}

/// Where all allocations of a pair are one number, its guard is that number for each path that is left.
pub fn even_allocations_guard_evenly()
    ensures { EvenGuards }
{}

/// There are rates with one allocation for all paths of a pair that nothing can raise, whatever the demands and the
/// capacities are.
pub fn even_protections_exist()
    ensures { EvenProtectionsExist }
{}

/// None of the inequalities fails exactly where the rates are guarded.
pub fn guarded_is_faultless()
    ensures { GuardedIsFaultless }
{}

/// There are rates with all that [`protect`](crate::protect) promises, for every network, routing and demands.
pub fn protections_exist()
    ensures { ProtectionsExist }
{}

/// The small files whose lines are due for a routing are the files of its rates, and each that was begun can be ended.
pub fn files_are_of_rates()
    ensures { FilesOfRates }
{}

/// Bytes have one meaning as rates of a routing.
pub fn rates_have_one_meaning()
    ensures { RatesHaveOneMeaning }
{}

/// Keeping no more than 32 bits of the number of failures changes no rule's answer.
pub fn kept_failures_have_same_fault()
    ensures { KeptHasSameFault }
{}

/// The text of rates that keep the rules has fewer than 6,000,000 bytes, where there are at most 16,256 pairs with at most 32
/// paths each.
pub fn rate_texts_are_short()
    ensures { RateTextsAreShort }
{}

/// There is one answer to rates of a certificate whose routes are a routing, and there is an answer to demands.
pub fn answers_exist()
    ensures { AnswersExist }
{}
