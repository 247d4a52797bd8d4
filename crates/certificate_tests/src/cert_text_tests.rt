//! Certificates of the first format are printed as they were read, and read as they were printed; other files are refused for the same reason by
//! all who read.
ghost use Rattle.te_model.specs.Validity.{IsValid};

use cert_text::spelling::{print_and_read, read_and_print};
use cert_text::{CertFault, print, read};
use std::alloc::Global;
use te_model::{Certificate, RuleFault};

// The smallest certificate.
const SMALLEST: &str =
    "yates-ratio 1\nnodes 2\na\nb\nlinks 1\n0 1 10 1\npairs 1\n0 1 1\n1000000 1 0\nset all\nratio 1000000\nblocks 1\n0 1000000 1 1\n1\n0 0 1\nend\n";

// The same, where both nodes have one name.
const TWICE_A_NAME: &str =
    "yates-ratio 1\nnodes 2\na\na\nlinks 1\n0 1 10 1\npairs 1\n0 1 1\n1000000 1 0\nset all\nratio 1000000\nblocks 1\n0 1000000 1 1\n1\n0 0 1\nend\n";

// Three nodes and a margin.
const MARGIN: &str =
    "yates-ratio 1\nnodes 3\na\nb\nc\nlinks 4\n0 2 10 1\n1 2 10 1\n0 1 10 1\n1 0 10 1\npairs 2\n0 2 1\n1000000 1 0\n1 2 1\n1000000 1 1\nset margin 2 1\nbase 10 5\nratio 1000000\nblocks 1\n0 500000 1 1\n1 1 0 0\n0 0 0 1\nplus 1 0\nminus 0 1\nend\n";

// Whether the certificate of this text is printed as the text.
fn is_printed_again(alloc: Global, text: &str) -> bool {
    match read_and_print(alloc, text.as_bytes()) {
        Ok(file) => file.as_slice() == text.as_bytes(),
        Err(_) => false,
    }
}

// Whether the certificate is read back from its text, and has the text again.
fn is_text_of(alloc: Global, cert: &Certificate, text: &str) -> bool
    requires { IsValid cert.now }
{
    match print_and_read(alloc, cert) {
        Ok(again) => matches!(print(alloc, &again), Ok(file) if file.as_slice() == text.as_bytes()),
        Err(_) => false,
    }
}

// Whether the certificate of this text is read again from what is printed of it.
fn is_read_again(alloc: Global, text: &str) -> bool {
    match read(alloc, text.as_bytes()) {
        Ok(cert) => is_text_of(alloc, &cert, text),
        Err(_) => false,
    }
}

// Whether the file is refused for this reason, also where it was to be printed again.
fn is_refused(alloc: Global, text: &str, due: CertFault) -> bool {
    let is_unread = matches!(read(alloc, text.as_bytes()), Err(fault) if fault == due);
    is_unread & matches!(read_and_print(alloc, text.as_bytes()), Err(fault) if fault == due)
}

#[test]
fn files_of_the_first_format_are_printed_as_they_were_read(rt: HostRuntime) {
    assert!(rt; is_printed_again(rt.alloc(), SMALLEST));
    assert!(rt; is_printed_again(rt.alloc(), MARGIN));
}

#[test]
fn certificates_are_read_from_what_is_printed_of_them(rt: HostRuntime) {
    assert!(rt; is_read_again(rt.alloc(), SMALLEST));
    assert!(rt; is_read_again(rt.alloc(), MARGIN));
}

#[test]
fn files_that_are_refused_are_not_printed(rt: HostRuntime) {
    let fault = RuleFault {
        number: 1,
        place: 1,
    };
    assert!(rt; is_refused(rt.alloc(), "yates-ratio 1\nnodes 1\n", CertFault::Shape(2)));
    assert!(rt; is_refused(rt.alloc(), TWICE_A_NAME, CertFault::Rule(fault)));
}
