//! Laws of what the commands of a sound table mean. A law of the definitions is the contract of a function that does nothing.
ghost use Rattle.std.specs.Prelude.{◌≡◌, ℕ, List, ◌∷◌, ◌++◌, Option};
ghost use Rattle.te_ports.specs.Record.{Read, Adds};
ghost use Rattle.command_frame.specs.Files.{Span, span, given_files, told_files, known_files};
ghost use Rattle.command_frame.specs.Reading.{IsTold, Means, MeansStatus, Proves, RefusesUntold};
ghost use Rattle.command_frame.specs.Order.{ReadsAlong, AsksNext};
ghost use Rattle.command_frame.specs.Table.{IsSoundTable, OfToldWords, reading_in};

use crate::table::Table;

/// The told files of a command mean one status, those of the command of some words a text, and those of a command whose answers
/// have one text no other one.
pub fn told_files_mean_one_answer<T: Table>(_table: &T)
    requires { IsSoundTable T.table }
    ensures some { (command : T.Command) → (content : List ℕ → Option (List ℕ)) → IsTold (reading_in T.table command) content →
        (status : ℕ) × MeansStatus (reading_in T.table command) (told_files content) status }
    ensures some_text { (words : List (List ℕ)) → (content : List ℕ → Option (List ℕ)) → OfToldWords T.table words content (λ command.
        (status : ℕ) × (text : List ℕ) × Means (reading_in T.table command) (told_files content) status text) }
    ensures status { (command : T.Command) → (content : List ℕ → Option (List ℕ)) → (s : ℕ) → (text : List ℕ) →
        Means (reading_in T.table command) (told_files content) s text → MeansStatus (reading_in T.table command) (told_files content) s }
    ensures one { (command : T.Command) → (content : List ℕ → Option (List ℕ)) → (s : ℕ) → (t : ℕ) →
        MeansStatus (reading_in T.table command) (told_files content) s → MeansStatus (reading_in T.table command) (told_files content) t → s ≡ t }
    ensures one_text { (command : T.Command) → (content : List ℕ → Option (List ℕ)) → (s : ℕ) → (t : ℕ) → (a : List ℕ) → (b : List ℕ) →
        (T.table.entry_of command).has_one_text → Means (reading_in T.table command) (told_files content) s a → Means (reading_in T.table command) (told_files content) t b → a ≡ b }
{}

/// What the told files of a command mean at status 0 proves what its text says.
pub fn told_yes_is_a_proof<T: Table>(_table: &T)
    requires { IsSoundTable T.table }
    ensures { (command : T.Command) → (content : List ℕ → Option (List ℕ)) → (text : List ℕ) →
        Means (reading_in T.table command) (told_files content) 0 text → Proves (reading_in T.table command) (told_files content) text }
{}

/// What the reads of a call gave of told files is what is told, and so it means what the told files mean.
pub fn told_files_are_read<T: Table>(_table: &T)
    requires { IsSoundTable T.table }
    ensures known { (command : T.Command) → (content : List ℕ → Option (List ℕ)) → (made : Span) → Adds content made.before made.now →
        (status : ℕ) → (text : List ℕ) → Means (reading_in T.table command) (given_files made) status text →
        Means (reading_in T.table command) (known_files made content) status text }
    ensures told { (command : T.Command) → (content : List ℕ → Option (List ℕ)) → (made : Span) → Adds content made.before made.now →
        IsTold (reading_in T.table command) content → (status : ℕ) → (text : List ℕ) →
        Means (reading_in T.table command) (given_files made) status text → Means (reading_in T.table command) (told_files content) status text }
{}

/// And what told files mean is what some reads of them give, so that there are reads that give each meaning.
pub fn told_files_can_be_read<T: Table>(_table: &T)
    requires { IsSoundTable T.table }
    ensures { (command : T.Command) → (content : List ℕ → Option (List ℕ)) → (status : ℕ) → (text : List ℕ) →
        Means (reading_in T.table command) (told_files content) status text → (before : List Read) →
        (now : List Read) × Adds content before now × Means (reading_in T.table command) (given_files (span before now)) status text }
{}

/// Of any reads, a file that is told and gives a value is never the one that is refused.
pub fn accepted_files_are_not_refused<T: Table>(_table: &T)
    requires { IsSoundTable T.table }
    ensures { (command : T.Command) → (content : List ℕ → Option (List ℕ)) → (made : Span) → Adds content made.before made.now →
        (text : List ℕ) → Means (reading_in T.table command) (given_files made) 3 text →
        RefusesUntold (reading_in T.table command) (given_files made) content text }
{}

/// Each read of a command is the one that is next by what the reads before it gave, of which there is one: two calls whose reads were the
/// same so far read the same next, whatever was read before the calls and from whichever depots.
pub fn next_read_is_one<T: Table>(_table: &T)
    requires { IsSoundTable T.table }
    ensures next { (command : T.Command) → (before : List Read) → (front : List Read) → (rest : List Read) → (one : Read) →
        ReadsAlong (reading_in T.table command) before (before ++ front ++ one ∷ rest) →
        AsksNext (reading_in T.table command) before (before ++ front) one.name one.at }
    ensures one { (command : T.Command) → (before : List Read) → (now : List Read) → (name : List ℕ) → (other : List ℕ) → (at : ℕ) → (place : ℕ) →
        AsksNext (reading_in T.table command) before now name at → AsksNext (reading_in T.table command) before now other place →
        (name ≡ other) × (at ≡ place) }
    ensures alike { (command : T.Command) → (before : List Read) → (start : List Read) → (front : List Read) → (rest : List Read) → (last : List Read) →
        (one : Read) → (other : Read) → ReadsAlong (reading_in T.table command) before (before ++ front ++ one ∷ rest) →
        ReadsAlong (reading_in T.table command) start (start ++ front ++ other ∷ last) → (one.name ≡ other.name) × (one.at ≡ other.at) }
{}

/// What the reads of a call mean does not depend on the reads before it: what is proved of one depot holds of each other one that gave the
/// same, be the one in memory and the other that of the system. They mean one status, and those of a command whose answers have one text one text.
pub fn reads_mean_one_answer<T: Table>(_table: &T)
    requires { IsSoundTable T.table }
    ensures after_others { (command : T.Command) → (before : List Read) → (other : List Read) → (reads : List Read) → (status : ℕ) → (text : List ℕ) →
        Means (reading_in T.table command) (given_files (span before (before ++ reads))) status text →
        Means (reading_in T.table command) (given_files (span other (other ++ reads))) status text }
    ensures one { (command : T.Command) → (made : Span) → (s : ℕ) → (t : ℕ) → (a : List ℕ) → (b : List ℕ) →
        Means (reading_in T.table command) (given_files made) s a → Means (reading_in T.table command) (given_files made) t b → s ≡ t }
    ensures one_text { (command : T.Command) → (made : Span) → (s : ℕ) → (t : ℕ) → (a : List ℕ) → (b : List ℕ) → (T.table.entry_of command).has_one_text →
        Means (reading_in T.table command) (given_files made) s a → Means (reading_in T.table command) (given_files made) t b → a ≡ b }
{}
