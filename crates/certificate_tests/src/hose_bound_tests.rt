//! Hose certificates of the straight routes: their file, the verdict on them, and those that are made of bounds. What is said of several paths of a
//! pair is shown by whole calls.
ghost use Rattle.std.specs.Prelude.{◌≡◌};
ghost use Rattle.te_model.specs.Network.{node_count};
ghost use Rattle.te_model.specs.ThreeNodes.{straight_routes, three_nodes};
ghost use Rattle.hose_bound.specs.Rules.{IsValidHose, IsValidHoseCert};

use crate::cases::{Case, all_hold};
use crate::ratio_certificate_tests::straight_routing;
use hose_bound::spelling::{print_and_read, read_and_print};
use hose_bound::{
    Hose, HoseBlock, HoseCert, HoseFault, HoseVerdict, hose_cert_fault, hose_fault, judge, make,
    print, read, read_bounds,
};
use routing::Routing;
use sample_networks::three_nodes;
use std::alloc::Global;
use te_model::{Items, Memory, Network, RuleFault};

// A hose certificate's file behind its first line, and the verdict on it, or why it is refused.
struct Judged<'a>(&'a str, Result<HoseVerdict, HoseFault>);

const JUDGED: &[Judged] = &[
    Judged(
        "sent 5 9 0\nreceived 0 0 10\nbound 900000\nblocks 2\nlink 0\ntails 1000000 0 0\nheads 0 0 0\nlink 1\ntails 0 1000000 0\nheads 0 0 0\nend\n",
        Ok(HoseVerdict::Yes),
    ),
    Judged(
        "sent 5 9 0\nreceived 0 0 10\nbound 899999\nblocks 2\nlink 0\ntails 1000000 0 0\nheads 0 0 0\nlink 1\ntails 0 1000000 0\nheads 0 0 0\nend\n",
        Ok(HoseVerdict::No {
            link: 1,
            rule: 2,
            place: 0,
        }),
    ),
    Judged(
        "sent 5 9 0\nreceived 0 0 10\nbound 900000\nblocks 1\nlink 0\ntails 1000000 0 0\nheads 0 0 0\nend\n",
        Ok(HoseVerdict::No {
            link: 1,
            rule: 1,
            place: 1,
        }),
    ),
    Judged(
        "sent 5 9 0\nreceived 0 0 4294967297\nbound 10000000000000000000\nblocks 0\nend\n",
        Err(HoseFault::Rule(RuleFault {
            number: 1,
            place: 5,
        })),
    ),
    Judged(
        "sent 5 9 0\nreceived 0 0 10\nbound 10000000000000000000\nblocks 0\nend\n",
        Err(HoseFault::Rule(RuleFault {
            number: 2,
            place: 0,
        })),
    ),
    Judged(
        "sent 5 9 0\nreceived 0 0 10\nbound 1\nblocks 1\nlink 4\ntails 0 0 0\nheads 0 0 1000001\nend\n",
        Err(HoseFault::Rule(RuleFault {
            number: 3,
            place: 0,
        })),
    ),
    Judged(
        "sent 5 9 0\nreceived 0 0 10\nbound 1\nblocks 1\nlink 3\ntails 0 0 0\nheads 0 0 1000001\nend\n",
        Err(HoseFault::Rule(RuleFault {
            number: 4,
            place: 0,
        })),
    ),
    Judged(
        "sent 5 9 0\nreceived 0 0 10\nbound 1\nblocks 1025\nend\n",
        Err(HoseFault::Shape(5)),
    ),
];

// Whether this is said of the file.
fn is_judged(alloc: Global, net: &Network, routing: &Routing, file: &[u8], judged: &Judged) -> bool
    requires network { net.now ≡ three_nodes }
    requires routing { routing.now.routes ≡ straight_routes }
{
    match read(alloc, net, file) {
        Ok(cert) => judged.1 == Ok(judge(net, routing, &cert)),
        Err(fault) => judged.1 == Err(fault),
    }
}

// Whether a file that is read is printed again as it was, and another refused for the same.
fn is_printed_again(alloc: Global, net: &Network, file: &[u8], judged: &Judged) -> bool
    requires { net.now ≡ three_nodes }
{
    match read_and_print(alloc, net, file) {
        Ok(printed) => judged.1.is_ok() && printed.as_slice() == file,
        Err(fault) => judged.1 == Err(fault),
    }
}

// Whether the row holds.
fn is_answered(alloc: Global, judged: &Judged) -> Result<bool, Memory> {
    let net = three_nodes(alloc)?;
    let routing = straight_routing(alloc)?;
    let file = format!(in alloc; "yates-hose 1\n{}", judged.0)?;
    let bytes = file.as_bytes();
    Ok(
        is_judged(alloc, &net, &routing, bytes, judged)
            && is_printed_again(alloc, &net, bytes, judged),
    )
}

impl Case for Judged<'_> {
    fn holds(&self, alloc: Global) -> bool {
        matches!(is_answered(alloc, self), Ok(true))
    }
}

// A file of bounds, and the bound of the hose certificate that is made of it, or why it is refused.
struct Bounded<'a>(&'a [u8], Result<u64, HoseFault>);

const BOUNDED: &[Bounded] = &[
    Bounded(
        b"yates-bounds 1\nsent 5 9 0\nreceived 0 0 10\nend\n",
        Ok(900_000),
    ),
    Bounded(b"yates-bounds 1\nsent 0 0 0\nreceived 0 0 10\nend\n", Ok(0)),
    Bounded(
        b"yates-bounds 1\nsent 4294967297 9 0\nreceived 0 0 10\nend\n",
        Err(HoseFault::Rule(RuleFault {
            number: 1,
            place: 0,
        })),
    ),
    Bounded(
        b"yates-bounds 1\nreceived 0 0 10\nsent 5 9 0\nend\n",
        Err(HoseFault::Shape(2)),
    ),
];

// Whether the hose certificate has a file from which it is read back.
fn is_read_back(alloc: Global, net: &Network, cert: &HoseCert) -> bool
    requires network { net.now ≡ three_nodes }
    requires cert { IsValidHoseCert net.now cert.now }
{
    let is_printed = print(alloc, cert).is_ok();
    match print_and_read(alloc, net, cert) {
        Ok(again) => is_printed && again.bound == cert.bound,
        Err(_) => false,
    }
}

// Whether the hose certificate that is made of the hose has this bound, and the verdict on it is yes.
fn has_bound(alloc: Global, net: &Network, hose: Hose, bound: u64) -> Result<bool, Memory>
    requires network { net.now ≡ three_nodes }
    requires hose { IsValidHose (node_count net.now) hose }
{
    let routing = straight_routing(alloc)?;
    let cert = make(alloc, net, &routing, hose)?;
    let is_yes = judge(net, &routing, &cert) == HoseVerdict::Yes;
    Ok(is_yes && cert.bound == bound && is_read_back(alloc, net, &cert))
}

// Whether the row holds.
fn is_bounded(alloc: Global, bounded: &Bounded) -> Result<bool, Memory> {
    let net = three_nodes(alloc)?;
    match read_bounds(alloc, &net, bounded.0) {
        Ok(hose) => match bounded.1 {
            Ok(bound) => has_bound(alloc, &net, hose, bound),
            Err(_) => Ok(false),
        },
        Err(fault) => Ok(bounded.1 == Err(fault)),
    }
}

impl Case for Bounded<'_> {
    fn holds(&self, alloc: Global) -> bool {
        matches!(is_bounded(alloc, self), Ok(true))
    }
}

// What the nodes send and receive, the bound, the links of the blocks and each of their numbers, and the first rule that fails, with its place.
struct Ruled<'a>(&'a [u64], &'a [u64], u64, &'a [u32], u64, Option<(u8, u64)>);

const RULED: &[Ruled] = &[
    Ruled(&[5, 9, 0], &[0, 0, 10], 900_000, &[0, 3], 1_000_000, None),
    Ruled(&[1 << 32, 0, 0], &[0, 0, 1 << 32], 0, &[], 0, None),
    Ruled(&[5, (1 << 32) + 1, 0], &[0, 0, 10], 0, &[], 0, Some((1, 1))),
    Ruled(&[5, 9, 0], &[0, 0, (1 << 32) + 1], 0, &[], 0, Some((1, 5))),
    Ruled(
        &[5, 9, 0],
        &[0, 0, 10],
        10_000_000_000_000_000_000,
        &[],
        0,
        Some((2, 0)),
    ),
    Ruled(&[5, 9, 0], &[0, 0, 10], 0, &[0, 4], 0, Some((3, 1))),
    Ruled(&[5, 9, 0], &[0, 0, 10], 0, &[1, 1], 0, Some((3, 1))),
    Ruled(&[5, 9, 0], &[0, 0, 10], 0, &[3], 1_000_001, Some((4, 0))),
    // Two rules, of which the first one is named.
    Ruled(&[5, 9, 0], &[0, 0, 10], 0, &[3, 0], 1_000_001, Some((3, 1))),
];

// Blocks of these links, all of whose numbers are one.
fn blocks_of(alloc: Global, links: &[u32], number: u64) -> Result<Vec<HoseBlock>, Memory> {
    let mut blocks = Vec::new(alloc);
    for link in links {
        let tails = Items::new(vec![in alloc; number; 3]?);
        let heads = Items::new(vec![in alloc; number; 3]?);
        let link = *link;
        blocks.push(HoseBlock { link, tails, heads })?;
    }
    Ok(blocks)
}

// The hose certificate of the row.
fn ruled_cert(alloc: Global, ruled: &Ruled) -> Result<HoseCert, Memory> {
    let hose = Hose {
        sent: Items::new(Vec::from_slice(alloc, ruled.0)?),
        received: Items::new(Vec::from_slice(alloc, ruled.1)?),
    };
    let blocks = Items::new(blocks_of(alloc, ruled.3, ruled.4)?);
    Ok(HoseCert {
        hose,
        bound: ruled.2,
        blocks,
    })
}

// Whether the rule of the row is the first that fails, and of the hose by itself where it is the rule of hoses.
fn is_first_fault(net: &Network, cert: &HoseCert, ruled: &Ruled) -> bool
    requires { net.now ≡ three_nodes }
{
    let due = ruled.5.map(|(number, place)| RuleFault { number, place });
    let due_of_hose = due.filter(|fault| fault.number == 1);
    hose_cert_fault(net, cert) == due && hose_fault(3, &cert.hose) == due_of_hose
}

// Whether the row holds.
fn is_ruled(alloc: Global, ruled: &Ruled) -> Result<bool, Memory> {
    let net = three_nodes(alloc)?;
    let cert = ruled_cert(alloc, ruled)?;
    Ok(is_first_fault(&net, &cert, ruled))
}

impl Case for Ruled<'_> {
    fn holds(&self, alloc: Global) -> bool {
        matches!(is_ruled(alloc, self), Ok(true))
    }
}

#[test]
fn first_rule_of_a_hose_is_named(rt: HostRuntime) {
    all_hold(&rt, rt.alloc(), RULED);
}

#[test]
fn hose_certificates_are_judged_or_refused(rt: HostRuntime) {
    all_hold(&rt, rt.alloc(), JUDGED);
}

#[test]
fn bounds_are_shown_or_refused(rt: HostRuntime) {
    all_hold(&rt, rt.alloc(), BOUNDED);
}
