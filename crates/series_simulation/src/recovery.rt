//! What a recovery does in a step.
ghost use Rattle.std.specs.Prelude.{◌≡◌, option_map};
ghost use Rattle.std.specs.List.{list_any};
ghost use Rattle.series_simulation.specs.KeptRouting.{without_rerouting};
ghost use Rattle.series_simulation.specs.Rows.{is_rerouted, mode_of, paths_to_adapt};

use local_recovery::Mode;
use plan::Recovery;
use routing::Routing;

/// How traffic goes on where links of its paths have failed. A routing that is made anew has none, and is kept; rates that are chosen
/// anew over paths that stand lose none by being scaled.
pub fn mode_of(recovery: Recovery) -> Mode
    ensures { result ≡ mode_of recovery }
{
    match recovery {
        Recovery::Keep | Recovery::Reroute => Mode::Keep,
        Recovery::Scale | Recovery::Adapt => Mode::Scale,
        Recovery::Bypass => Mode::Bypass,
    }
}

/// Whether one of the marks is set.
fn has_mark(marks: &[bool]) -> bool
    ensures { result ≡ list_any (λ mark. mark) marks.now }
{
    for mark in marks {
        if *mark {
            return true;
        }
    }
    false
}

/// Whether the scheme is prepared anew in a step with these marks of failed links.
pub fn is_rerouted(recovery: Recovery, failed: &[bool]) -> bool
    ensures { result ≡ is_rerouted recovery failed.now }
{
    match recovery {
        Recovery::Keep | Recovery::Scale | Recovery::Bypass | Recovery::Adapt => false,
        Recovery::Reroute => has_mark(failed),
    }
}

/// The routing over whose paths rates are chosen anew in a step with these marks of failed links, if they are.
pub fn paths_to_adapt<'a>(
    recovery: Recovery,
    failed: &[bool],
    path_set: Option<&'a Routing>,
) -> Option<&'a Routing>
    ensures { option_map (λ r. r.now.routes) result ≡ paths_to_adapt recovery failed.now (option_map (λ r. r.now.routes) path_set.entry) }
{
    match recovery {
        Recovery::Keep | Recovery::Scale | Recovery::Bypass | Recovery::Reroute => None,
        Recovery::Adapt => { if has_mark(failed) { path_set } else { None } }
    }
}

/// The recovery of a routing that is not made anew: what is left of it is scaled.
pub fn without_rerouting(recovery: Recovery) -> Recovery
    ensures { result ≡ without_rerouting recovery }
{
    match recovery {
        Recovery::Keep | Recovery::Scale | Recovery::Bypass => recovery,
        Recovery::Reroute | Recovery::Adapt => Recovery::Scale,
    }
}
