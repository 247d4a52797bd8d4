//! The blocks that are left of a file, of which one is kept.
ghost use Rattle.std.specs.Prelude.{◌≡◌, ◌≢◌, ◌≤◌, ◌<◌, ◌+◌, ◌^◌};
ghost use Rattle.block_reader.specs.Sizes.{block_size};

use crate::lines::Lines;
use crate::parts::close;
use crate::room::Room;
use crate::stream_fault::{StreamFault, earlier};
use crate::taking::take_block;
use te_model::{RuleFault, block_fault};
use te_ports::Depot;

/// The lines behind the blocks that were read, and room for the next one.
#[derive(Drop)]
pub(crate) struct Blocks {
    pub(crate) name: String,
    pub(crate) lines: Lines,
    pub(crate) room: Room,
    pub(crate) size: usize,
    pub(crate) left: u64,
    pub(crate) place: u64,
    pub(crate) before: Option<u32>,
    ghost sized: { size ≡ block_size room.limits.nodes room.counts },
    ghost small: { size ≤ 1310720 },
    ghost few: { place + left ≤ 2 ^ 32 },
}

impl Blocks {
    ghost use Rattle.std.specs.Prelude.{List, [], ◌∷◌, ◌++◌, Some, Ok, Err, IfOk, OnOk, IsTrue, true, false, string_bytes};
    ghost use Rattle.te_model.specs.declared.certificate.Block.{Block};
    ghost use Rattle.te_model.specs.declared.certificate.Head.{Head};
    ghost use Rattle.te_model.specs.declared.network.Network.{Network};
    ghost use Rattle.te_model.specs.Network.{node_count, link_count};
    ghost use Rattle.te_model.specs.Validity.{block_fault, follows, IsValidBlock};
    ghost use Rattle.cert_text.specs.Reading.{narrow_number};
    ghost use Rattle.cert_text.specs.Grammar.{read_block};
    ghost use Rattle.cert_text.specs.Fits.{FitsBlock};
    ghost use Rattle.block_reader.specs.Answers.{IsWell, AnswersPart};
    ghost use Rattle.block_reader.specs.Blocks.{AreBehind, AreOf, IsFaultOf, IsTextOf, IsShapeOf, KeepsRules, IsEarliest, SameRoom, block_in};
    ghost use Rattle.te_ports.specs.Record.{Read, pass};
    ghost use Rattle.te_ports.specs.Shown.{shown_by};
    ghost use Rattle.block_reader.specs.Depots.{ReadsNamed, ReadsTo};

    // Reads the lines of the next block into the room.
    fn take_next<D: Depot>(&mut self, depot: &mut D) -> Result<(), StreamFault>
        requires well { IsWell self.old.lines }
        ensures well { OnOk result (IsWell self.new.lines) }
        ensures fits { OnOk result (FitsBlock self.old.room.limits self.old.room.counts self.new.room.block) }
        ensures answers { (before : List Read) → AnswersPart (pass (string_bytes self.old.name) before (D.gave depot.old))
            (pass (string_bytes self.old.name) before (D.gave depot.new))
            self.old.lines self.new.lines (read_block self.old.room.limits narrow_number self.old.room.counts)
            (block_in result self.new.room.block) }
        ensures reads { ReadsNamed (shown_by D.content D.gave D.faults depot.old) (shown_by D.content D.gave D.faults depot.new)
            (string_bytes self.old.name) result }
        ensures memory { result ≢ Err StreamFault.Memory }
        ensures room { SameRoom self.old self.new }
        ensures left { self.new.left ≡ self.old.left }
        ensures place { self.new.place ≡ self.old.place }
        ensures before { self.new.before ≡ self.old.before }
    {
        self.lines.fill(depot, self.name.as_str(), self.size)?;
        match take_block(&mut self.lines, &mut self.room) {
            Ok(()) => Ok(()),
            Err(stop) => Err(self.lines.stopped(depot, self.name.as_str(), stop)),
        }
    }

    // Counts the block that was read: the first fault of its rules.
    fn count(&mut self) -> Option<RuleFault>
        requires { 1 ≤ self.old.left }
        ensures fault { (net : Network) → node_count net ≡ self.old.room.counts.nodes → link_count net ≡ self.old.room.counts.links →
            result ≡ block_fault net self.old.before self.old.place self.old.room.block }
        ensures lines { self.new.lines ≡ self.old.lines }
        ensures room { SameRoom self.old self.new }
        ensures block { self.new.room.block ≡ self.old.room.block }
        ensures left { self.new.left + 1 ≡ self.old.left }
        ensures place { self.new.place ≡ self.old.place + 1 }
        ensures before { self.new.before ≡ Some self.old.room.block.link }
    {
        let nodes = self.room.counts.nodes as usize;
        let links = self.room.counts.links as usize;
        let fault = block_fault(nodes, links, self.before, self.place, &self.room.block);
        self.before = Some(self.room.block.link);
        self.place += 1;
        self.left -= 1;
        fault
    }

    // Reads the next block, and answers the first fault of its rules.
    fn read_next<D: Depot>(&mut self, depot: &mut D) -> Result<Option<RuleFault>, StreamFault>
        requires some { 1 ≤ self.old.left }
        requires well { IsWell self.old.lines }
        ensures well { OnOk result (IsWell self.new.lines) }
        ensures fits { IfOk result (λ _. FitsBlock self.old.room.limits self.old.room.counts self.new.room.block) }
        ensures fault { IfOk result (λ fault. (net : Network) → node_count net ≡ self.old.room.counts.nodes →
            link_count net ≡ self.old.room.counts.links →
            fault ≡ block_fault net self.old.before self.old.place self.new.room.block) }
        ensures handed { IfOk result (λ fault. (before : List Read) → (head : Head) → (blocks : List Block) →
            AreBehind (pass (string_bytes self.old.name) before (D.gave depot.old)) self.old head blocks →
            AreBehind (pass (string_bytes self.old.name) before (D.gave depot.new)) self.new head (blocks ++ self.new.room.block ∷ [])) }
        ensures refused { (fault : StreamFault) → result ≡ Err fault → (before : List Read) → (head : Head) → (blocks : List Block) →
            AreBehind (pass (string_bytes self.old.name) before (D.gave depot.old)) self.old head blocks →
            IsFaultOf (pass (string_bytes self.old.name) before (D.gave depot.new)) fault }
        ensures reads { ReadsNamed (shown_by D.content D.gave D.faults depot.old) (shown_by D.content D.gave D.faults depot.new)
            (string_bytes self.old.name) result }
        ensures memory { result ≢ Err StreamFault.Memory }
        ensures room { SameRoom self.old self.new }
        ensures left { OnOk result (self.new.left + 1 ≡ self.old.left) }
        ensures before { OnOk result (self.new.before ≡ Some self.new.room.block.link) }
    {
        self.take_next(depot)?;
        Ok(self.count())
    }

    // Reads the end of the file, where no block is left.
    fn read_end<D: Depot>(&mut self, depot: &mut D) -> Result<(), StreamFault>
        requires none { self.old.left ≡ 0 }
        requires well { IsWell self.old.lines }
        ensures well { OnOk result (IsWell self.new.lines) }
        ensures whole { OnOk result ((before : List Read) → (head : Head) → (blocks : List Block) →
            AreBehind (pass (string_bytes self.old.name) before (D.gave depot.old)) self.old head blocks →
            IsShapeOf (pass (string_bytes self.old.name) before (D.gave depot.new)) head blocks) }
        ensures refused { (fault : StreamFault) → result ≡ Err fault → (before : List Read) → (head : Head) → (blocks : List Block) →
            AreBehind (pass (string_bytes self.old.name) before (D.gave depot.old)) self.old head blocks →
            IsFaultOf (pass (string_bytes self.old.name) before (D.gave depot.new)) fault }
        ensures reads { ReadsNamed (shown_by D.content D.gave D.faults depot.old) (shown_by D.content D.gave D.faults depot.new)
            (string_bytes self.old.name) result }
        ensures memory { result ≢ Err StreamFault.Memory }
        ensures room { SameRoom self.old self.new }
        ensures left { self.new.left ≡ self.old.left }
        ensures before { self.new.before ≡ self.old.before }
    {
        close(depot, self.name.as_str(), &mut self.lines)
    }

    // The earliest of the faults of rules, of which this is the earliest so far: all blocks that are left are read, and the
    // end.
    fn earliest<D: Depot>(
        &mut self,
        depot: &mut D,
        first: RuleFault,
    ) -> Result<RuleFault, StreamFault>
        requires well { IsWell self.old.lines }
        ensures rule { IfOk result (λ rule. (before : List Read) → (head : Head) → (blocks : List Block) →
            AreBehind (pass (string_bytes self.old.name) before (D.gave depot.old)) self.old head blocks →
            IsEarliest head blocks first → IsFaultOf (pass (string_bytes self.old.name) before (D.gave depot.new)) (StreamFault.Rule rule)) }
        ensures refused { (fault : StreamFault) → result ≡ Err fault → (before : List Read) → (head : Head) → (blocks : List Block) →
            AreBehind (pass (string_bytes self.old.name) before (D.gave depot.old)) self.old head blocks →
            IsFaultOf (pass (string_bytes self.old.name) before (D.gave depot.new)) fault }
        ensures reads { ReadsNamed (shown_by D.content D.gave D.faults depot.old) (shown_by D.content D.gave D.faults depot.new)
            (string_bytes self.old.name) result }
        ensures memory { result ≢ Err StreamFault.Memory }
        ensures room { SameRoom self.old self.new }
    {
        let mut earliest = first;
        'rest: while self.left > 0 {
            let fault = self.read_next(depot)?;
            earliest = earlier(earliest, fault);
        }
        self.read_end(depot)?;
        Ok(earliest)
    }

    /// The fault of a file of which this fault of a rule is the earliest so far.
    pub(crate) fn judge_rest<D: Depot>(&mut self, depot: &mut D, first: RuleFault) -> StreamFault
        requires well { IsWell self.old.lines }
        ensures refused { (before : List Read) → (head : Head) → (blocks : List Block) →
            AreBehind (pass (string_bytes self.old.name) before (D.gave depot.old)) self.old head blocks → IsEarliest head blocks first →
            IsFaultOf (pass (string_bytes self.old.name) before (D.gave depot.new)) result }
        ensures reads { ReadsTo (shown_by D.content D.gave D.faults depot.old) (shown_by D.content D.gave D.faults depot.new)
            (string_bytes self.old.name) result }
        ensures memory { result ≢ StreamFault.Memory }
        ensures room { SameRoom self.old self.new }
    {
        match self.earliest(depot, first) {
            Ok(fault) => StreamFault::Rule(fault),
            Err(fault) => fault,
        }
    }

    /// Reads the next block, or the end where none is left.
    pub(crate) fn advance<D: Depot>(&mut self, depot: &mut D) -> Result<bool, StreamFault>
        requires well { IsWell self.old.lines }
        ensures well { OnOk result (IsWell self.new.lines) }
        ensures handed { result ≡ Ok true → (before : List Read) → (head : Head) → (blocks : List Block) →
            AreBehind (pass (string_bytes self.old.name) before (D.gave depot.old)) self.old head blocks → KeepsRules head blocks →
            AreBehind (pass (string_bytes self.old.name) before (D.gave depot.new)) self.new head (blocks ++ self.new.room.block ∷ [])
            × KeepsRules head (blocks ++ self.new.room.block ∷ []) }
        ensures whole { result ≡ Ok false → (before : List Read) → (head : Head) → (blocks : List Block) →
            AreBehind (pass (string_bytes self.old.name) before (D.gave depot.old)) self.old head blocks → KeepsRules head blocks →
            IsTextOf (pass (string_bytes self.old.name) before (D.gave depot.new)) head blocks }
        ensures refused { (fault : StreamFault) → result ≡ Err fault → (before : List Read) → (head : Head) → (blocks : List Block) →
            AreBehind (pass (string_bytes self.old.name) before (D.gave depot.old)) self.old head blocks → KeepsRules head blocks →
            IsFaultOf (pass (string_bytes self.old.name) before (D.gave depot.new)) fault }
        ensures valid { result ≡ Ok true → (head : Head) → AreOf self.old head → IsValidBlock head self.new.room.block }
        ensures ascends { result ≡ Ok true → IsTrue (follows self.old.before self.new.room.block.link) }
        ensures before { result ≡ Ok true → self.new.before ≡ Some self.new.room.block.link }
        ensures fewer { result ≡ Ok true → self.new.left < self.old.left }
        ensures ended { result ≡ Ok false → (self.old.left ≡ 0) × (self.new.left ≡ 0) }
        ensures reads { ReadsNamed (shown_by D.content D.gave D.faults depot.old) (shown_by D.content D.gave D.faults depot.new)
            (string_bytes self.old.name) result }
        ensures memory { result ≢ Err StreamFault.Memory }
        ensures room { SameRoom self.old self.new }
    {
        if self.left == 0 {
            self.read_end(depot)?;
            return Ok(false);
        }
        match self.read_next(depot)? {
            None => Ok(true),
            Some(fault) => Err(self.judge_rest(depot, fault)),
        }
    }
}
