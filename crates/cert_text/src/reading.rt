//! Reading the file of a certificate.
ghost use Rattle.std.specs.Prelude.{◌≡◌, ℕ, Ok, Err, Some, None, IfOk, MatchResult};
ghost use Rattle.te_model.specs.Text.{Spells};
ghost use Rattle.te_model.specs.Faults.{IsShapeFault, IsRuleFault};
ghost use Rattle.te_model.specs.Validity.{first_rule};
ghost use Rattle.cert_text.specs.Place.{place};
ghost use Rattle.cert_text.specs.Reading.{narrow_number};
ghost use Rattle.cert_text.specs.Grammar.{read_certificate};
ghost use Rattle.cert_text.specs.Answer.{IsShaped};
ghost use Rattle.cert_text.specs.Outcome.{IsDueOrMemory};

use crate::cursor::Bytes;
use crate::fault::{CertFault, Stop};
use crate::grammar;
use crate::reader::Reader;
use std::alloc::Global;
use te_model::{Certificate, RuleFault, first_rule};

// The certificate whose lines these are, whether or not its rules hold. A number that is too large for its field is
// kept as the greatest one, which the rules refuse.
fn shape(alloc: Global, bytes: &[u8]) -> Result<Certificate, CertFault>
    ensures exact { IsShaped result (read_certificate narrow_number (place 1 bytes.now)) }
{
    let mut reader = Reader::new(Bytes::new(bytes));
    match grammar::certificate(&mut reader, alloc) {
        Ok(cert) => Ok(cert),
        Err(Stop::Shape(line)) => Err(CertFault::Shape(line)),
        Err(Stop::Memory) => Err(CertFault::Memory),
    }
}

// Gives the certificate back if its rules hold.
fn keep_valid(cert: Certificate) -> Result<Certificate, CertFault>
    ensures { MatchResult result (λ c. (c ≡ cert) × (first_rule cert ≡ None))
        (λ e. (f : RuleFault) × (e ≡ CertFault.Rule f) × (first_rule cert ≡ Some f)) }
{
    match first_rule(&cert) {
        Some(fault) => Err(CertFault::Rule(fault)),
        None => Ok(cert),
    }
}

/// Reads the file of a certificate of either format, up to the limits of its own. The answer is determined by the bytes:
///
/// - the certificate, where it is valid and the bytes are its text;
/// - `Shape(line)`, where the bytes are no file of either format: the first line, counted from 1, that is missing,
///   unended or of another form than is due after the lines before it, or that stands after `end`;
/// - `Rule(fault)`, where the file has the right shape and a rule fails: the failing rule of the least number, at its
///   least place;
/// - `Memory`, where memory runs out.
pub fn read(alloc: Global, bytes: &[u8]) -> Result<Certificate, CertFault>
    ensures spelled { IfOk result (λ c. Spells bytes.now c) }
    ensures accepted { (c : Certificate) → Spells bytes.now c → IsDueOrMemory result (Ok c) }
    ensures shape { (k : ℕ) → result ≡ Err (CertFault.Shape k) → IsShapeFault bytes.now k }
    ensures misshaped { (k : ℕ) → IsShapeFault bytes.now k →
        IsDueOrMemory result (Err (CertFault.Shape k)) }
    ensures rule { (f : RuleFault) → result ≡ Err (CertFault.Rule f) → IsRuleFault bytes.now f }
    ensures invalid { (f : RuleFault) → IsRuleFault bytes.now f →
        IsDueOrMemory result (Err (CertFault.Rule f)) }
{
    let cert = shape(alloc, bytes)?;
    keep_valid(cert)
}
