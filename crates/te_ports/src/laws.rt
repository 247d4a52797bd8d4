//! Laws of what is on record. A law is the contract of a function that does nothing.
ghost use Rattle.std.specs.Prelude.{◌≡◌, ◌<◌, ◌≤◌, ℕ, List, [], ◌∷◌, ◌++◌, length, All, Some};
ghost use Rattle.std.specs.List.{concat};
ghost use Rattle.std.specs.declared.option.Option.{Option};
ghost use Rattle.te_ports.specs.Limit.{IsLimit};
ghost use Rattle.te_ports.specs.Record.{Adds, Pass, HasGiven, IsRead, IsReadPast, IsReadPastAllowed, reads_from};

/// What the reads of a pass gave of a told file, from its start to its end, is what is told; and where they gave more than a
/// limit, it is longer, also where the limit hangs on its first bytes.
pub fn reads_agree_with_what_is_told()
    ensures whole { (content : List ℕ → Option (List ℕ)) → (p : Pass) → Adds content p.before p.now → (told : List ℕ) →
        content p.name ≡ Some told → (bytes : List ℕ) → IsRead p bytes → bytes ≡ told }
    ensures longer { (content : List ℕ → Option (List ℕ)) → (p : Pass) → Adds content p.before p.now → (told : List ℕ) →
        content p.name ≡ Some told → (limit : ℕ) → IsReadPast p limit → limit < length told }
    ensures longer_than_allowed { (content : List ℕ → Option (List ℕ)) → (p : Pass) → Adds content p.before p.now → (told : List ℕ) →
        content p.name ≡ Some told → (allowed : List ℕ → ℕ) → IsLimit allowed → IsReadPastAllowed p allowed →
        allowed told < length told }
{}

/// The reads of a pass are those of some pieces of its file, in their order, none of them twice and none of them empty, and of the
/// end behind them: the bytes are these pieces. So they are the only bytes that this pass gave, also of a file that changed while
/// it was read. The same is true of a pass that did not come to the end of its file, and no reads are both.
pub fn reads_are_in_order()
    ensures pieces { (p : Pass) → (bytes : List ℕ) → IsRead p bytes → (pieces : List (List ℕ)) ×
        (p.now ≡ p.before ++ reads_from p.name 0 (pieces ++ [] ∷ [])) × (bytes ≡ concat pieces) ×
        All (λ piece. 1 ≤ length piece) pieces }
    ensures one { (p : Pass) → (a : List ℕ) → (b : List ℕ) → IsRead p a → IsRead p b → a ≡ b }
    ensures front_pieces { (p : Pass) → (bytes : List ℕ) → HasGiven p bytes → (pieces : List (List ℕ)) ×
        (p.now ≡ p.before ++ reads_from p.name 0 pieces) × (bytes ≡ concat pieces) × All (λ piece. 1 ≤ length piece) pieces }
    ensures one_front { (p : Pass) → (a : List ℕ) → (b : List ℕ) → HasGiven p a → HasGiven p b → a ≡ b }
    ensures not_both { (p : Pass) → (a : List ℕ) → (b : List ℕ) → HasGiven p a → IsRead p b → ⊥ }
{}
