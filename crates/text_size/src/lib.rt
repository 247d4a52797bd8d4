//! How long the text of a certificate can be.
#![tactic(auto)]

ghost use Rattle.std.specs.Prelude.{◌≡◌, ◌<◌, ◌≤◌, ℕ, List, length};
ghost use Rattle.te_model.specs.declared.certificate.Certificate.{Certificate};
ghost use Rattle.te_model.specs.FileLimit.{file_limit};
ghost use Rattle.te_model.specs.Formats.{limits_of};
ghost use Rattle.te_model.specs.Validity.{IsValid};
ghost use Rattle.te_model.specs.Text.{text, Spells};

/// The text of every valid certificate has fewer than 112,000,000 bytes in the first format, and fewer than 950,000,000 in
/// the second, so it fits a file of its format.
///
/// A law of the definitions is the contract of a function that does nothing.
pub fn valid_texts_are_short()
    ensures first_format { (c : Certificate) → IsValid c → c.head.format ≡ 1 → length (text c) < 112000000 }
    ensures second_format { (c : Certificate) → IsValid c → c.head.format ≡ 2 → length (text c) < 950000000 }
    ensures fits { (c : Certificate) → IsValid c → length (text c) ≤ (limits_of c.head.format).bytes }
    ensures files { (bytes : List ℕ) → (c : Certificate) → Spells bytes c → length bytes ≤ file_limit bytes }
{}
