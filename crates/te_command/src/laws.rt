//! Laws of what commands mean. A law of the definitions is the contract of a function that does nothing.
ghost use Rattle.std.specs.Prelude.{◌≡◌, ◌⊎◌, ◌↔◌, ℕ, List, ◌∷◌, ◌++◌, Option, Some};
ghost use Rattle.te_ports.specs.Ports.{Rose};
ghost use Rattle.te_ports.specs.Record.{Read, Adds};
ghost use Rattle.fault_rates.specs.declared.verdict.RateVerdict.TheVariants.{Yes};
ghost use Rattle.fault_rates.specs.Answers.{verdict_line};
ghost use Rattle.command_frame.specs.Files.{Span, span, given_files, told_files, known_files};
ghost use Rattle.command_frame.specs.Reading.{IsTold, Means, MeansStatus, Proves, ReadFailed, RefusesUntold};
ghost use Rattle.command_frame.specs.Order.{ReadsAlong, AsksNext};
ghost use Rattle.te_command.specs.Commands.{Command, attack, bound_hose, challenge, check, check_hose, check_network, check_rates, check_witness, protect, reprice, simulate, tighten, update, reading_of, MeansOneText};
ghost use Rattle.certificate_commands.specs.Attack.{SaysYesTo};
ghost use Rattle.routing_commands.specs.BoundHose.{SaysYesToHose};
ghost use Rattle.certificate_commands.specs.Challenge.{ShowsNoLess};
ghost use Rattle.te_command.specs.Run.{OfToldCommand};
ghost use Rattle.te_command.specs.Converted.{AreConverted, SayYesAlike};

use crate::words::Commands;

/// The told files of a command mean one status, those of the command of some words a text, and those of a command that means one text no
/// other one.
pub fn told_files_mean_one_answer()
    ensures some { (command : Command) → (content : List ℕ → Option (List ℕ)) → IsTold (reading_of command) content →
        (status : ℕ) × MeansStatus (reading_of command) (told_files content) status }
    ensures some_text { (words : List (List ℕ)) → (content : List ℕ → Option (List ℕ)) → OfToldCommand words content (λ command.
        (status : ℕ) × (text : List ℕ) × Means (reading_of command) (told_files content) status text) }
    ensures status { (command : Command) → (content : List ℕ → Option (List ℕ)) → (s : ℕ) → (text : List ℕ) →
        Means (reading_of command) (told_files content) s text → MeansStatus (reading_of command) (told_files content) s }
    ensures one { (command : Command) → (content : List ℕ → Option (List ℕ)) → (s : ℕ) → (t : ℕ) →
        MeansStatus (reading_of command) (told_files content) s → MeansStatus (reading_of command) (told_files content) t → s ≡ t }
    ensures one_text { (command : Command) → (content : List ℕ → Option (List ℕ)) → (s : ℕ) → (t : ℕ) → (a : List ℕ) → (b : List ℕ) →
        MeansOneText command → Means (reading_of command) (told_files content) s a → Means (reading_of command) (told_files content) t b → a ≡ b }
{
    command_frame::laws::told_files_mean_one_answer(&Commands)
}

/// What the told files of a command mean at status 0 proves what its text says.
pub fn told_yes_is_a_proof()
    ensures { (command : Command) → (content : List ℕ → Option (List ℕ)) → (text : List ℕ) →
        Means (reading_of command) (told_files content) 0 text → Proves (reading_of command) (told_files content) text }
{
    command_frame::laws::told_yes_is_a_proof(&Commands)
}

/// `check` says of the file that `convert` made what it says of the one that was converted: no by the same inequality, or yes
/// to the same ratio.
pub fn converted_files_are_answered_alike()
    ensures no { (content : List ℕ → Option (List ℕ)) → (file : List ℕ) → (made : List ℕ) → AreConverted content file made → (line : List ℕ) →
        Means (reading_of (check file)) (told_files content) 1 line → Means (reading_of (check made)) (told_files content) 1 line }
    ensures yes { (content : List ℕ → Option (List ℕ)) → (file : List ℕ) → (made : List ℕ) → AreConverted content file made → (line : List ℕ) →
        Means (reading_of (check file)) (told_files content) 0 line →
        (boxed : List ℕ) × SayYesAlike line boxed × Means (reading_of (check made)) (told_files content) 0 boxed }
{}

/// `check` says yes to the file that `reprice` made of a certificate and a topology, alone and of this topology.
pub fn repriced_files_are_answered_yes()
    ensures alone { (content : List ℕ → Option (List ℕ)) → (file : List ℕ) → (topology : List ℕ) → (made : List ℕ) → (text : List ℕ) →
        content made ≡ Some text → Means (reading_of (reprice file topology)) (told_files content) 0 text →
        (line : List ℕ) × Means (reading_of (check made)) (told_files content) 0 line }
    ensures of_topology { (content : List ℕ → Option (List ℕ)) → (file : List ℕ) → (topology : List ℕ) → (made : List ℕ) → (text : List ℕ) →
        content made ≡ Some text → Means (reading_of (reprice file topology)) (told_files content) 0 text →
        (line : List ℕ) × Means (reading_of (check_network made topology)) (told_files content) 0 line }
{}

/// `check` says yes to the file that `tighten` made of a certificate.
pub fn tightened_files_are_answered_yes()
    ensures { (content : List ℕ → Option (List ℕ)) → (file : List ℕ) → (made : List ℕ) → (text : List ℕ) →
        content made ≡ Some text → Means (reading_of (tighten file)) (told_files content) 0 text →
        (line : List ℕ) × Means (reading_of (check made)) (told_files content) 0 line }
{}

/// `check-witness` says of the file that `convert` made what it says of the one that was converted, of the same witness: the
/// same status, and the same text to the byte.
pub fn converted_files_are_witnessed_alike()
    ensures { (content : List ℕ → Option (List ℕ)) → (file : List ℕ) → (made : List ℕ) → (witness : List ℕ) → AreConverted content file made →
        (status : ℕ) → (text : List ℕ) → Means (reading_of (check_witness file witness)) (told_files content) status text →
        Means (reading_of (check_witness made witness)) (told_files content) status text }
{}

/// `update` says of the file that `convert` made what it says of the one that was converted, as the older certificate and as the newer
/// one: the same status, and the same text to the byte.
pub fn converted_files_are_updated_alike()
    ensures older { (content : List ℕ → Option (List ℕ)) → (file : List ℕ) → (made : List ℕ) → (newer : List ℕ) → (matrices : List ℕ) →
        AreConverted content file made → (status : ℕ) → (text : List ℕ) →
        Means (reading_of (update file newer matrices)) (told_files content) status text →
        Means (reading_of (update made newer matrices)) (told_files content) status text }
    ensures newer { (content : List ℕ → Option (List ℕ)) → (file : List ℕ) → (made : List ℕ) → (older : List ℕ) → (matrices : List ℕ) →
        AreConverted content file made → (status : ℕ) → (text : List ℕ) →
        Means (reading_of (update older file matrices)) (told_files content) status text →
        Means (reading_of (update older made matrices)) (told_files content) status text }
{}

/// `check-witness` says yes to what `attack` means of a told certificate, where it is told under any name: beside this certificate, and
/// beside the one that `convert` makes of it.
pub fn attacks_are_witnessed()
    ensures yes { (content : List ℕ → Option (List ℕ)) → (file : List ℕ) → (made : List ℕ) → (text : List ℕ) →
        Means (reading_of (attack file)) (told_files content) 0 text → content made ≡ Some text →
        (line : List ℕ) × SaysYesTo text line × Means (reading_of (check_witness file made)) (told_files content) 0 line }
    ensures converted { (content : List ℕ → Option (List ℕ)) → (file : List ℕ) → (made : List ℕ) → (witness : List ℕ) → AreConverted content file made →
        (text : List ℕ) → Means (reading_of (attack file)) (told_files content) 0 text → content witness ≡ Some text →
        (line : List ℕ) × SaysYesTo text line × Means (reading_of (check_witness made witness)) (told_files content) 0 line }
{}

/// `check-witness` says yes to what `challenge` means of a told certificate, where it is told under any name: beside this certificate, and
/// beside the one that `convert` makes of it.
pub fn challenges_are_witnessed()
    ensures yes { (content : List ℕ → Option (List ℕ)) → (file : List ℕ) → (made : List ℕ) → (text : List ℕ) →
        Means (reading_of (challenge file)) (told_files content) 0 text → content made ≡ Some text →
        (line : List ℕ) × SaysYesTo text line × Means (reading_of (check_witness file made)) (told_files content) 0 line }
    ensures converted { (content : List ℕ → Option (List ℕ)) → (file : List ℕ) → (made : List ℕ) → (witness : List ℕ) → AreConverted content file made →
        (text : List ℕ) → Means (reading_of (challenge file)) (told_files content) 0 text → content witness ≡ Some text →
        (line : List ℕ) × SaysYesTo text line × Means (reading_of (check_witness made witness)) (told_files content) 0 line }
{}

/// What `challenge` means of a told certificate has no lesser bound than some text that `attack` means of it.
pub fn challenges_show_no_less()
    ensures { (content : List ℕ → Option (List ℕ)) → (file : List ℕ) → (text : List ℕ) →
        Means (reading_of (challenge file)) (told_files content) 0 text →
        (own : List ℕ) × Means (reading_of (attack file)) (told_files content) 0 own × ShowsNoLess own text }
{}

/// `protect` and `check-rates` say of the file that `convert` made what they say of the one that was converted: the same status, and the
/// same text to the byte.
pub fn converted_files_are_protected_alike()
    ensures protect { (content : List ℕ → Option (List ℕ)) → (file : List ℕ) → (made : List ℕ) → (matrices : List ℕ) → (failures : ℕ) →
        AreConverted content file made → (status : ℕ) → (text : List ℕ) →
        Means (reading_of (protect file matrices failures)) (told_files content) status text →
        Means (reading_of (protect made matrices failures)) (told_files content) status text }
    ensures check_rates { (content : List ℕ → Option (List ℕ)) → (file : List ℕ) → (made : List ℕ) → (matrices : List ℕ) → (rates : List ℕ) →
        AreConverted content file made → (status : ℕ) → (text : List ℕ) →
        Means (reading_of (check_rates file matrices rates)) (told_files content) status text →
        Means (reading_of (check_rates made matrices rates)) (told_files content) status text }
{}

/// `check-rates` says yes, for as many failures, to what `protect` means of a told certificate and told matrices, where it is told under
/// any name.
pub fn protections_are_answered_yes()
    ensures { (content : List ℕ → Option (List ℕ)) → (file : List ℕ) → (matrices : List ℕ) → (failures : ℕ) → (rates : List ℕ) → (text : List ℕ) →
        Means (reading_of (protect file matrices failures)) (told_files content) 0 text → content rates ≡ Some text →
        Means (reading_of (check_rates file matrices rates)) (told_files content) 0 (verdict_line failures Yes) }
{}

/// `hose` and `check-hose` mean of the file that `convert` made what they mean of the one that was converted, and nothing else.
pub fn converted_files_are_bounded_alike()
    ensures hose { (content : List ℕ → Option (List ℕ)) → (file : List ℕ) → (made : List ℕ) → (bounds : List ℕ) → AreConverted content file made →
        (status : ℕ) → (text : List ℕ) → Means (reading_of (bound_hose file bounds)) (told_files content) status text ↔
        Means (reading_of (bound_hose made bounds)) (told_files content) status text }
    ensures check_hose { (content : List ℕ → Option (List ℕ)) → (file : List ℕ) → (made : List ℕ) → (hose : List ℕ) → AreConverted content file made →
        (status : ℕ) → (text : List ℕ) → Means (reading_of (check_hose file hose)) (told_files content) status text ↔
        Means (reading_of (check_hose made hose)) (told_files content) status text }
{}

/// `simulate` means of the file that `convert` made what it means of the one that was converted, and nothing else.
pub fn converted_files_are_simulated_alike()
    ensures { (content : List ℕ → Option (List ℕ)) → (file : List ℕ) → (made : List ℕ) → (plan : List ℕ) → AreConverted content file made →
        (status : ℕ) → (text : List ℕ) → Means (reading_of (simulate file plan)) (told_files content) status text ↔
        Means (reading_of (simulate made plan)) (told_files content) status text }
{}

/// `check-hose` says yes to what `hose` means of a told certificate and a told hose, where it is told under any name.
pub fn hose_texts_are_answered_yes()
    ensures { (content : List ℕ → Option (List ℕ)) → (file : List ℕ) → (bounds : List ℕ) → (made : List ℕ) → (text : List ℕ) →
        Means (reading_of (bound_hose file bounds)) (told_files content) 0 text → content made ≡ Some text →
        (line : List ℕ) × SaysYesToHose text line × Means (reading_of (check_hose file made)) (told_files content) 0 line }
{}

/// What the reads of a call gave of told files is what is told, and so it means what the told files mean.
pub fn told_files_are_read()
    ensures known { (command : Command) → (content : List ℕ → Option (List ℕ)) → (made : Span) → Adds content made.before made.now →
        (status : ℕ) → (text : List ℕ) → Means (reading_of command) (given_files made) status text →
        Means (reading_of command) (known_files made content) status text }
    ensures told { (command : Command) → (content : List ℕ → Option (List ℕ)) → (made : Span) → Adds content made.before made.now →
        IsTold (reading_of command) content → (status : ℕ) → (text : List ℕ) →
        Means (reading_of command) (given_files made) status text → Means (reading_of command) (told_files content) status text }
{
    command_frame::laws::told_files_are_read(&Commands)
}

/// And what told files mean is what some reads of them give, so that there are reads that give each meaning.
pub fn told_files_can_be_read()
    ensures { (command : Command) → (content : List ℕ → Option (List ℕ)) → (status : ℕ) → (text : List ℕ) →
        Means (reading_of command) (told_files content) status text → (before : List Read) →
        (now : List Read) × Adds content before now × Means (reading_of command) (given_files (span before now)) status text }
{
    command_frame::laws::told_files_can_be_read(&Commands)
}

/// Of any reads, a file that is told and gives a value is never the one that is refused.
pub fn accepted_files_are_not_refused()
    ensures { (command : Command) → (content : List ℕ → Option (List ℕ)) → (made : Span) → Adds content made.before made.now →
        (text : List ℕ) → Means (reading_of command) (given_files made) 3 text →
        RefusesUntold (reading_of command) (given_files made) content text }
{
    command_frame::laws::accepted_files_are_not_refused(&Commands)
}

/// Of any reads, a failed read of `check` is one of a file that its words name, even where the certificate is untold.
pub fn failed_reads_are_of_named_files()
    ensures { (certificate : List ℕ) → (topology : List ℕ) → (made : Span) → (before : List ℕ → ℕ) → (now : List ℕ → ℕ) →
        ReadFailed (reading_of (check_network certificate topology)) (given_files made) (λ file. Rose (before file) (now file)) →
        Rose (before certificate) (now certificate) ⊎ Rose (before topology) (now topology) }
{}

/// Each read of a command is the one that is next by what the reads before it gave, of which there is one: two calls whose reads were the
/// same so far read the same next, whatever was read before the calls and from whichever depots.
pub fn next_read_is_one()
    ensures next { (command : Command) → (before : List Read) → (front : List Read) → (rest : List Read) → (one : Read) →
        ReadsAlong (reading_of command) before (before ++ front ++ one ∷ rest) →
        AsksNext (reading_of command) before (before ++ front) one.name one.at }
    ensures one { (command : Command) → (before : List Read) → (now : List Read) → (name : List ℕ) → (other : List ℕ) → (at : ℕ) → (place : ℕ) →
        AsksNext (reading_of command) before now name at → AsksNext (reading_of command) before now other place →
        (name ≡ other) × (at ≡ place) }
    ensures alike { (command : Command) → (before : List Read) → (start : List Read) → (front : List Read) → (rest : List Read) → (last : List Read) →
        (one : Read) → (other : Read) → ReadsAlong (reading_of command) before (before ++ front ++ one ∷ rest) →
        ReadsAlong (reading_of command) start (start ++ front ++ other ∷ last) → (one.name ≡ other.name) × (one.at ≡ other.at) }
{
    command_frame::laws::next_read_is_one(&Commands)
}

/// What the reads of a call mean does not depend on the reads before it: what is proved of one depot holds of each other one that gave the
/// same, be the one in memory and the other that of the system. They mean one status, and those of a command that means one text no other one.
pub fn reads_mean_one_answer()
    ensures after_others { (command : Command) → (before : List Read) → (other : List Read) → (reads : List Read) → (status : ℕ) → (text : List ℕ) →
        Means (reading_of command) (given_files (span before (before ++ reads))) status text →
        Means (reading_of command) (given_files (span other (other ++ reads))) status text }
    ensures one { (command : Command) → (made : Span) → (s : ℕ) → (t : ℕ) → (a : List ℕ) → (b : List ℕ) →
        Means (reading_of command) (given_files made) s a → Means (reading_of command) (given_files made) t b → s ≡ t }
    ensures one_text { (command : Command) → (made : Span) → (s : ℕ) → (t : ℕ) → (a : List ℕ) → (b : List ℕ) → MeansOneText command →
        Means (reading_of command) (given_files made) s a → Means (reading_of command) (given_files made) t b → a ≡ b }
{
    command_frame::laws::reads_mean_one_answer(&Commands)
}
