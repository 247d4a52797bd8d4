//! The verdict on certificates that keep the rules: that on the whole is that on its blocks one at a time.
ghost use Rattle.te_model.specs.Validity.{IsValid};

use crate::cases::{Case, all_hold};
use cert_text::{CertFault, read};
use ratio_checker::{BlockFeed, Feed, Finding, verdict};
use std::alloc::{AllocError, Global};
use te_model::{Certificate, Memory};

// The first line of each format.
const FIRST: &str = "yates-ratio 1\n";

const SECOND: &str = "yates-ratio 2\n";

// Two parallel links, each with half of the one pair's demand.
const PARALLEL: &str =
    "nodes 2\na\nb\nlinks 2\n0 1 10 1\n0 1 30 1\npairs 1\n0 1 2\n500000 1 0\n500000 1 1\n";

// Three nodes, of which two send to the third, each over a link of its own.
const STRAIGHT: &str =
    "nodes 3\na\nb\nc\nlinks 4\n0 2 10 1\n1 2 10 1\n0 1 10 1\n1 0 10 1\npairs 2\n0 2 1\n1000000 1 0\n1 2 1\n1000000 1 1\n";

// Node z is out of reach from a, which sends to b.
const OUT_OF_REACH: &str =
    "nodes 3\na\nb\nz\nlinks 2\n0 1 10 1\n2 1 10 1\npairs 1\n0 1 1\n1000000 1 0\n";

// The blocks of three nodes for demands of which neither is above twice the other.
const FOR_DOUBLE: &str =
    "blocks 2\n0 1000000 3 2\n2 2 0 0\n0 0 0 2\n1 0 0 2\nplus 1 0\nminus 0 2\n1 1000000 3 2\n2 2 0 0\n0 0 0 2\n1 0 0 2\nplus 0 1\nminus 2 0\n";

// The first line, the network with its pairs, the set with the ratio, and the blocks of a certificate, and the first inequality
// that fails, if one does: its link, its number and its place.
struct Judged<'a>(&'a str, &'a str, &'a str, &'a str, Option<(u32, u8, u64)>);

// One for each inequality, and one that holds for each kind of set.
const CERTIFICATES: &[Judged] = &[
    Judged(
        FIRST,
        OUT_OF_REACH,
        "set all\nratio 1000000\n",
        "blocks 1\n0 1000000 1 1\n1 0\n0 0 1 0\n",
        Some((0, 1, 2)),
    ),
    Judged(
        FIRST,
        PARALLEL,
        "set all\nratio 2000000\n",
        "blocks 1\n0 500000 1 1\n1 1\n0 0 1\n",
        Some((1, 2, 0)),
    ),
    Judged(
        FIRST,
        STRAIGHT,
        "set margin 2 1\nbase 10 10\nratio 1333334\n",
        FOR_DOUBLE,
        Some((0, 3, 0)),
    ),
    Judged(
        SECOND,
        STRAIGHT,
        "set box\nlower 10 10\nupper 20 20\nratio 1333333\n",
        FOR_DOUBLE,
        Some((0, 4, 0)),
    ),
    Judged(
        FIRST,
        PARALLEL,
        "set all\nratio 2000000\n",
        "blocks 2\n0 500000 1 1\n1 1\n0 0 1\n1 500000 1 1\n1 1\n0 0 1\n",
        None,
    ),
    Judged(
        FIRST,
        STRAIGHT,
        "set margin 1 1\nbase 10 10\nratio 1333334\n",
        FOR_DOUBLE,
        None,
    ),
    Judged(
        SECOND,
        STRAIGHT,
        "set box\nlower 10 10\nupper 20 20\nratio 1333334\n",
        FOR_DOUBLE,
        None,
    ),
];

// What is found of a certificate, where the whole and its blocks one at a time give the same.
fn found(alloc: Global, cert: Certificate) -> Result<Option<Finding>, Memory>
    requires { IsValid cert }
{
    let whole = verdict(&cert);
    let blocks = cert.blocks;
    let mut feed = Feed::new(alloc, cert.head)?;
    for block in blocks.as_slice() {
        feed.block(block);
    }
    let same = feed.finish() == whole;
    Ok(same.then_some(whole))
}

// The finding where this inequality is the first that fails, or where none does.
fn finding_of(failure: Option<(u32, u8, u64)>) -> Finding {
    match failure {
        Some((link, rule, place)) => Finding::No { link, rule, place },
        None => Finding::Yes,
    }
}

// Whether this is found of the certificate of a text.
fn found_in(alloc: Global, text: &str, failure: Option<(u32, u8, u64)>) -> Result<bool, CertFault> {
    let cert = read(alloc, text.as_bytes())?;
    Ok(found(alloc, cert) == Ok(Some(finding_of(failure))))
}

// The certificate of these parts.
fn certificate_of(
    alloc: Global,
    first_line: &str,
    network: &str,
    claim: &str,
    blocks: &str,
) -> Result<String, AllocError> {
    [first_line, network, claim, blocks, "end\n"].concat(alloc)
}

impl Case for Judged<'_> {
    fn holds(&self, alloc: Global) -> bool {
        match certificate_of(alloc, self.0, self.1, self.2, self.3) {
            Ok(text) => found_in(alloc, text.as_str(), self.4) == Ok(true),
            Err(_) => false,
        }
    }
}

#[test]
fn the_first_inequality_that_fails_is_found(rt: HostRuntime) {
    all_hold(&rt, rt.alloc(), CERTIFICATES);
}
