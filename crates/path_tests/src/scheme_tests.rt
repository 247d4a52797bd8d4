//! The least path of each pair as a scheme, in generic code.
ghost use Rattle.std.specs.Prelude.{◌≡◌, ◌∷◌, []};
ghost use Rattle.sample_networks.specs.Literals.{pair_of};
ghost use Rattle.sample_networks.specs.Networks.{four_nodes};

mod generic;

use generic::{fixed_copy, planned};
use routing::Routing;
use sample_networks::{are_routes, four_nodes, matrix, pairs};
use scheme::*;
use std::alloc::Global;
use te_model::{Network, Pairs};

/// Whether each of the two pairs has its least path alone.
fn has_least_paths(routing: &Routing) -> bool {
    are_routes(
        routing.routes.as_slice(),
        &[(0, 1, &[(&[0], 1_000_000)]), (0, 2, &[(&[1], 1_000_000)])],
    )
}

/// What generic code gives for demands of 3 and 4 from s to t and to x.
fn planned_for_two(
    alloc: Global,
    net: &Network,
    reached: &Pairs,
) -> Result<(Routing, Option<u128>), SchemeFault>
    requires net { net.now ≡ four_nodes }
    requires pairs { reached.now.list ≡ pair_of (0, 1) ∷ pair_of (0, 2) ∷ [] }
{
    let matrix = matrix(alloc, &[3, 4])?;
    planned(alloc, &Spf, net, reached, &matrix)
}

/// Whether generic code gives the least paths for one matrix, and no bound.
fn has_least_paths_for_one(alloc: Global, net: &Network, reached: &Pairs) -> bool
    requires net { net.now ≡ four_nodes }
    requires pairs { reached.now.list ≡ pair_of (0, 1) ∷ pair_of (0, 2) ∷ [] }
{
    match planned_for_two(alloc, net, reached) {
        Ok((routing, low)) => has_least_paths(&routing) & low.is_none(),
        Err(_) => false,
    }
}

/// Whether generic code gives the least paths for all matrices.
fn has_least_paths_for_all(alloc: Global, net: &Network, reached: &Pairs) -> bool
    requires net { net.now ≡ four_nodes }
    requires pairs { reached.now.list ≡ pair_of (0, 1) ∷ pair_of (0, 2) ∷ [] }
{
    match fixed_copy(alloc, &Spf, net, reached) {
        Ok(fixed) => has_least_paths(&fixed),
        Err(_) => false,
    }
}

fn have_least_paths(alloc: Global, net: &Network) -> bool
    requires { net.now ≡ four_nodes }
{
    match pairs(alloc, &[(0, 1), (0, 2)]) {
        Ok(reached) => {
            let for_one = has_least_paths_for_one(alloc, net, &reached);
            for_one & has_least_paths_for_all(alloc, net, &reached)
        }
        Err(_) => false,
    }
}

fn each_pair_has_least_path_alone(alloc: Global) -> bool {
    match four_nodes(alloc) {
        Ok(net) => have_least_paths(alloc, &net),
        Err(_) => false,
    }
}

/// The plan for three pairs of which the second and the third one have no path.
fn prepared_for_unreached(alloc: Global, net: &Network) -> Result<SpfPlan, SchemeFault>
    requires { net.now ≡ four_nodes }
{
    let unreached = pairs(alloc, &[(0, 1), (1, 0), (1, 2)])?;
    Spf.prepare(alloc, net, &unreached)
}

/// Whether the first pair without a path is named.
fn is_fault_of_second(alloc: Global, net: &Network) -> bool
    requires { net.now ≡ four_nodes }
{
    match prepared_for_unreached(alloc, net) {
        Err(SchemeFault::NoPath(place)) => place == 1,
        _ => false,
    }
}

fn first_pair_without_path_is_named(alloc: Global) -> bool {
    match four_nodes(alloc) {
        Ok(net) => is_fault_of_second(alloc, &net),
        Err(_) => false,
    }
}

#[test]
fn generic_code_gives_least_paths(rt: HostRuntime) {
    assert!(rt; each_pair_has_least_path_alone(rt.alloc()));
    assert!(rt; ().low() == None);
    assert!(rt; first_pair_without_path_is_named(rt.alloc()));
}
