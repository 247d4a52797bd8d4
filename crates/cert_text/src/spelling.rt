//! Laws of the texts of certificates. A law of the definitions is the contract of a function that does nothing.
ghost use Rattle.std.specs.Prelude.{◌≡◌, ℕ, ◌++◌, ◌⊎◌, List, [], IsTrue, IfOk, MatchResult, Ok, Err};
ghost use Rattle.te_model.specs.Formats.{limits_of};
ghost use Rattle.te_model.specs.declared.certificate.Certificate.{Certificate};
ghost use Rattle.te_model.specs.declared.certificate.RuleFault.{RuleFault};
ghost use Rattle.te_model.specs.Shape.{is_shaped};
ghost use Rattle.te_model.specs.Validity.{IsValid};
ghost use Rattle.te_model.specs.Text.{text, Spells};
ghost use Rattle.te_model.specs.Faults.{IsShapeFault, IsRuleFault};
ghost use Rattle.cert_text.specs.Outcome.{IsDueOrMemory};

use crate::fault::CertFault;
use crate::printing::print;
use crate::reading::read;
use std::alloc::Global;
use te_model::Certificate;

/// No two certificates, of whichever formats, have one text, and no text begins another: where the text of one certificate begins with that of another,
/// nothing stands after it, and the two are one.
pub fn text_begins_no_other()
    ensures shaped { (c : Certificate) → (d : Certificate) → (r : List ℕ) →
        IsTrue (is_shaped (limits_of c.head.format) c) → IsTrue (is_shaped (limits_of d.head.format) d) →
        text d ≡ text c ++ r → (c ≡ d) × (r ≡ []) }
    ensures valid { (c : Certificate) → (d : Certificate) → (r : List ℕ) → IsValid c → IsValid d →
        text d ≡ text c ++ r → (c ≡ d) × (r ≡ []) }
{}

/// Bytes are read in one way: they spell one valid certificate, or have one fault of shape, or one fault of a rule.
pub fn bytes_are_read_one_way()
    ensures some { (bytes : List ℕ) → ((c : Certificate) × Spells bytes c) ⊎
        (((k : ℕ) × IsShapeFault bytes k) ⊎ ((f : RuleFault) × IsRuleFault bytes f)) }
    ensures one_certificate { (bytes : List ℕ) → (c : Certificate) → (d : Certificate) →
        Spells bytes c → Spells bytes d → c ≡ d }
    ensures one_line { (bytes : List ℕ) → (j : ℕ) → (k : ℕ) →
        IsShapeFault bytes j → IsShapeFault bytes k → j ≡ k }
    ensures one_rule { (bytes : List ℕ) → (f : RuleFault) → (g : RuleFault) →
        IsRuleFault bytes f → IsRuleFault bytes g → f ≡ g }
    ensures spelled_or_misshaped { (bytes : List ℕ) → (c : Certificate) → (k : ℕ) →
        Spells bytes c → IsShapeFault bytes k → ⊥ }
    ensures spelled_or_ruled { (bytes : List ℕ) → (c : Certificate) → (f : RuleFault) →
        Spells bytes c → IsRuleFault bytes f → ⊥ }
    ensures misshaped_or_ruled { (bytes : List ℕ) → (k : ℕ) → (f : RuleFault) →
        IsShapeFault bytes k → IsRuleFault bytes f → ⊥ }
{}

/// Prints the certificate and reads it back: what [`print`] writes, [`read`] takes for the same certificate.
pub fn print_and_read(alloc: Global, cert: &Certificate) -> Result<Certificate, CertFault>
    requires { IsValid cert.now }
    ensures same { IsDueOrMemory result (Ok cert.now) }
{
    let file = print(alloc, cert)?;
    read(alloc, file.as_slice())
}

// Prints the certificate, with the error of a reader.
fn print_of_read(alloc: Global, cert: &Certificate) -> Result<Vec<u8>, CertFault>
    ensures { MatchResult result (λ file. file.items ≡ text cert.now) (λ fault. fault ≡ CertFault.Memory) }
{
    Ok(print(alloc, cert)?)
}

/// Reads the file and prints it again: what [`read`] takes, [`print`] writes byte for byte.
///
/// # Errors
///
/// `Shape` and `Rule` exactly where [`read`] answers them, at the same line and of the same rule; `Memory` where memory
/// runs out.
pub fn read_and_print(alloc: Global, bytes: &[u8]) -> Result<Vec<u8>, CertFault>
    ensures same { IfOk result (λ file. file.items ≡ bytes.now) }
    ensures spelled { IfOk result (λ _. (c : Certificate) × Spells bytes.now c) }
    ensures shape { (k : ℕ) → result ≡ Err (CertFault.Shape k) → IsShapeFault bytes.now k }
    ensures misshaped { (k : ℕ) → IsShapeFault bytes.now k →
        IsDueOrMemory result (Err (CertFault.Shape k)) }
    ensures rule { (f : RuleFault) → result ≡ Err (CertFault.Rule f) → IsRuleFault bytes.now f }
    ensures invalid { (f : RuleFault) → IsRuleFault bytes.now f →
        IsDueOrMemory result (Err (CertFault.Rule f)) }
{
    match read(alloc, bytes) {
        Ok(cert) => print_of_read(alloc, &cert),
        Err(fault) => Err(fault),
    }
}
