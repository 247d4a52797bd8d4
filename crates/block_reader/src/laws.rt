//! Laws of windows and of how far reading looks. A law is the contract of a function that does nothing.
ghost use Rattle.std.specs.Prelude.{◌≡◌, ℕ, List, ◌++◌, Some, codes};
ghost use Rattle.std.specs.declared.option.Option.{Option};
ghost use Rattle.te_model.specs.declared.limits.Limits.{Limits};
ghost use Rattle.te_ports.specs.Record.{Adds, Pass, IsRead, IsReadPastAllowed};
ghost use Rattle.cert_text.specs.declared.limits.Counts.{Counts};
ghost use Rattle.cert_text.specs.Grammar.{read_format, read_network, read_counted, read_pair, read_set, read_ratio, read_block, read_closing};
ghost use Rattle.block_reader.specs.declared.window.State.TheVariants.{Ended as IsEnded, TooLong as IsTooLong};
ghost use Rattle.block_reader.specs.Standing.{ready, state_of, limit_of, StandsAt, StandsIn};
ghost use Rattle.block_reader.specs.Ahead.{IsAhead, with_no_value};
ghost use Rattle.block_reader.specs.Sizes.{format_size, network_size, count_size, pair_size, set_size, ratio_size, block_size, closing_size};

use crate::Window;

/// A window that stands in what the reads of a pass gave stands in the told content; where the file ended, they gave what was
/// passed and what stands ready, and nothing else; and where it is too long, they gave one byte more than its limit allows.
pub fn windows_stand_in_what_is_told(window: &Window)
    ensures told { (content : List ℕ → Option (List ℕ)) → (p : Pass) → Adds content p.before p.now → (told : List ℕ) →
        content p.name ≡ Some told → (passed : List ℕ) → StandsAt p window.now passed → StandsIn told window.now passed }
    ensures whole { (p : Pass) → (passed : List ℕ) → StandsAt p window.now passed → state_of window.now ≡ IsEnded →
        IsRead p (passed ++ ready window.now) }
    ensures past { (p : Pass) → (passed : List ℕ) → (allowed : List ℕ → ℕ) → StandsAt p window.now passed →
        limit_of window.now ≡ allowed (passed ++ ready window.now) → state_of window.now ≡ IsTooLong →
        IsReadPastAllowed p allowed }
{}

/// Reading of each part of a certificate of either format takes at most so many bytes, and what stands behind as many
/// changes neither what is read nor the faulty line.
pub fn reading_looks_so_far()
    ensures format { IsAhead format_size read_format }
    ensures network { (limits : Limits) → (keep : ℕ → ℕ) → IsAhead (network_size limits) (read_network limits keep) }
    ensures pairs { (limits : Limits) → IsAhead count_size (read_counted (codes "pairs ") 0 limits.pairs) }
    ensures pair { (limits : Limits) → (keep : ℕ → ℕ) → IsAhead (pair_size limits) (read_pair limits keep) }
    ensures set { (limits : Limits) → (pairs : ℕ) → IsAhead (set_size pairs) (read_set limits pairs) }
    ensures ratio { IsAhead ratio_size read_ratio }
    ensures blocks { (limits : Limits) → IsAhead count_size (read_counted (codes "blocks ") 0 limits.links) }
    ensures block { (limits : Limits) → (keep : ℕ → ℕ) → (counts : Counts) →
        IsAhead (block_size limits.nodes counts) (read_block limits keep counts) }
    ensures closing { IsAhead closing_size (with_no_value read_closing) }
{}
