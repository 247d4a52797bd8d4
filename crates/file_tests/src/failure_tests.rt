//! Outages: the links that fail in each step, and the network that is left.
ghost use Rattle.std.specs.Prelude.{IsTrue};
ghost use Rattle.te_model.specs.Network.{is_well_formed};

use failure::*;
use std::alloc::Global;
use std::process::Abort;
use te_model::{Items, Memory, Network};

// The nodes s, t, x and y: a straight link from s to t, a way over x, and a narrow way over y to x.
const FOUR_NODES: &[u8] =
    b"source,target,capacity,cost\ns,t,10,1\ns,x,10,1\nx,t,10,1\ns,y,3,3\ny,x,3,3\n";

// A step, and whether each of the five links has failed in it.
type Marks = (u32, [bool; 5]);

// Whether these are the marks of the links in a step, and the same is said of link 1 alone.
fn marks_are(
    alloc: Global,
    net: &Network,
    failures: &Failures,
    marks: &Marks,
) -> Result<bool, Memory>
    requires { IsTrue (is_well_formed net.now) }
{
    let (step, wanted) = *marks;
    let marks = failures.marks(alloc, net, step)?;
    let alone = failures.failed_at(step, 1) == wanted[1];
    Ok(alone & (marks.as_slice() == wanted.as_slice()))
}

// Whether each step alone is marked as is wanted.
fn steps_are(alloc: Global, net: &Network, failures: &Failures, wanted: &[Marks]) -> bool
    requires { IsTrue (is_well_formed net.now) }
{
    for marks in wanted {
        if marks_are(alloc, net, failures, marks) != Ok(true) {
            return false;
        }
    }
    true
}

// Whether a series marks each step as is wanted.
fn are_wanted(series: &[Items<bool>], wanted: &[Marks]) -> bool {
    if series.len() != wanted.len() {
        return false;
    }
    for place in 0..series.len() {
        if series[place].as_slice() != wanted[place].1.as_slice() {
            return false;
        }
    }
    true
}

// Whether the series of these steps is marked as is wanted.
fn series_is(
    alloc: Global,
    net: &Network,
    failures: &Failures,
    wanted: &[Marks],
) -> Result<bool, Memory> {
    let series = failures.series(alloc, net, wanted.len())?;
    Ok(are_wanted(series.as_slice(), wanted))
}

// Whether these outages of a network mark the links so, in a series and in each step alone.
fn outages_mark(
    alloc: Global,
    net: &Network,
    outages: &[Outage],
    wanted: &[Marks],
) -> Result<bool, Memory>
    requires { IsTrue (is_well_formed net.now) }
{
    let list = Items::new(Vec::from_slice(alloc, outages)?);
    let failures = Failures { list };
    let alone = steps_are(alloc, net, &failures, wanted);
    Ok(alone & (series_is(alloc, net, &failures, wanted) == Ok(true)))
}

// Two outages that overlap, one that touches them, one that stands twice, and one of a link that is not there.
const OUTAGES: &[Outage] = &[
    Outage {
        from: 0,
        to: 1,
        link: 1,
    },
    Outage {
        from: 1,
        to: 1,
        link: 1,
    },
    Outage {
        from: 2,
        to: 2,
        link: 1,
    },
    Outage {
        from: 2,
        to: 3,
        link: 4,
    },
    Outage {
        from: 2,
        to: 3,
        link: 4,
    },
    Outage {
        from: 0,
        to: 9,
        link: 7,
    },
];

// Their marks of each step.
const MARKS: &[Marks] = &[
    (0, [false, true, false, false, false]),
    (1, [false, true, false, false, false]),
    (2, [false, true, false, false, true]),
    (3, [false, false, false, false, true]),
];

// Whether the links of these numbers are left of the network, the second of them being link 2, and all nodes.
fn is_left(left: &Survivor, net: &Network, origin: &[u32]) -> bool {
    let second = left.network.links.as_slice().get(1) == net.links.as_slice().get(2);
    let links = left.origin.as_slice() == origin;
    second & links & (left.network.names == net.names)
}

// Whether these links and all nodes are left of a network.
fn leaves(alloc: Global, net: &Network, failed: &[bool], origin: &[u32]) -> Result<bool, Memory>
    requires { IsTrue (is_well_formed net.now) }
{
    if failed.len() != net.links.as_slice().len() {
        return Ok(false);
    }
    let left = surviving(alloc, net, failed)?;
    Ok(is_left(&left, net, origin))
}

// Outages of four nodes mark their links, and leave the others.
fn outages_are_judged(rt: &impl Abort, alloc: Global, net: &Network)
    requires { IsTrue (is_well_formed net.now) }
{
    assert!(rt; outages_mark(alloc, net, OUTAGES, MARKS) == Ok(true));
    let failed = [false, true, false, false, false];
    assert!(rt; leaves(alloc, net, &failed, &[0, 2, 3, 4]) == Ok(true));
}

#[test]
fn outages_of_four_nodes(rt: HostRuntime) {
    let net = topology::read(rt.alloc(), FOUR_NODES).expect(&rt, "four nodes");
    outages_are_judged(&rt, rt.alloc(), &net);
}
