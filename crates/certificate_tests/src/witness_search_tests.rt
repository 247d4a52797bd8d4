//! Files of witnesses that attacks write of two pairs in a triangle, by the routings of two schemes. What `attack` writes by another scheme, and what
//! is said of a witness, is shown by whole calls.
ghost use Rattle.std.specs.Prelude.{IfSome};
ghost use Rattle.te_model.specs.Validity.{IsValidHead};

use crate::cases::{Case, all_hold};
use cert_text::read;
use k_paths::Ksp;
use scheme::Spf;
use std::alloc::Global;
use te_model::{Head, Memory};
use witness_search::attack_text;

// The set of a certificate of the triangle, whether the rival has two paths of each pair or one, and the file that is written.
struct Attacked<'a>(&'a str, bool, &'a [u8]);

const ATTACKED: &[Attacked] = &[
    // Each pair has a path of its own, and one by way of the other node, which divides the demand of a pair alone.
    Attacked(
        "set all",
        true,
        b"yates-witness 1\nbound 2000000\nscale 1 1\ndemand 1000000 0\n2\n500000 1 0\n500000 2 2 1\n2\n500000 1 1\n500000 2 3 0\nend\n",
    ),
    Attacked(
        "set all",
        false,
        b"yates-witness 1\nbound 1000000\nscale 1 1\ndemand 1000000 0\n1\n1000000 1 0\n1\n1000000 1 1\nend\n",
    ),
    Attacked(
        "set margin 3 2\nbase 10 10",
        false,
        b"yates-witness 1\nbound 1000000\nscale 1 4\ndemand 10 10\n1\n1000000 1 0\n1\n1000000 1 1\nend\n",
    ),
    Attacked(
        "set margin 3 2\nbase 0 0",
        false,
        b"yates-witness 1\nbound 0\nscale 0 1\ndemand 0 0\n0\n0\nend\n",
    ),
];

// The head of the certificate of a text.
fn head_of(alloc: Global, text: &str) -> Option<Head>
    ensures { IfSome result IsValidHead }
{
    match read(alloc, text.as_bytes()) {
        Ok(certificate) => Some(certificate.head),
        Err(_) => None,
    }
}

// The head of two pairs in a triangle, with this set.
fn triangle(alloc: Global, set: &str) -> Option<Head>
    ensures { IfSome result IsValidHead }
{
    let text = format!(in alloc;
        "yates-ratio 1\nnodes 3\na\nb\nc\nlinks 4\n0 2 10 1\n1 2 10 1\n0 1 10 1\n1 0 10 1\npairs 2\n0 2 1\n1000000 1 0\n1 2 1\n1000000 1 1\n{set}\nratio 0\nblocks 0\nend\n",
    );
    match text {
        Ok(text) => head_of(alloc, text.as_str()),
        Err(_) => None,
    }
}

// The file that an attack writes by two paths of each pair, or by one.
fn file_of(alloc: Global, head: &Head, has_two_paths: bool) -> Result<Vec<u8>, Memory>
    requires { IsValidHead head.now }
{
    if has_two_paths {
        attack_text(alloc, head, &Ksp { k: 2 })
    } else {
        attack_text(alloc, head, &Spf)
    }
}

// Whether this file is written of the head.
fn is_written(alloc: Global, head: &Head, attacked: &Attacked) -> bool
    requires { IsValidHead head.now }
{
    match file_of(alloc, head, attacked.1) {
        Ok(file) => file.as_slice() == attacked.2,
        Err(_) => false,
    }
}

impl Case for Attacked<'_> {
    fn holds(&self, alloc: Global) -> bool {
        match triangle(alloc, self.0) {
            Some(head) => is_written(alloc, &head, self),
            None => false,
        }
    }
}

#[test]
fn attacks_are_written_by_two_schemes(rt: HostRuntime) {
    all_hold(&rt, rt.alloc(), ATTACKED);
}
