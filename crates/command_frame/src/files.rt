//! Reading a file of any kind: the value that it gives, or the line that refuses it.
ghost use Rattle.std.specs.Prelude.{◌≤◌, length, IfOk, IfSome};
ghost use Rattle.command_frame.specs.Reading.{too_long};
ghost use Rattle.te_ports.specs.Shown.{shown_by};
ghost use Rattle.command_frame.specs.Outcome.{IsRefusal, ReadsBytesOf, ReadsFile};

use crate::answer::Fault;
use crate::kind::{BytesFault, FileKind};
use std::alloc::Global;
use std::fmt::Display;
use te_ports::{Depot, Limit, LoadFault, load_within};

// How many bytes a file of the kind may have.
#[derive(Drop)]
struct LimitOf<'a, K> {
    kind: &'a K,
}

impl<'a, K: FileKind> Limit for LimitOf<'a, K> {
    ghost allowed = { λ of. (K.kind of.kind.now).limit };

    fn allowed(&self, bytes: &[u8]) -> u64 {
        self.kind.limit(bytes)
    }
}

/// The fault of a file that has too many bytes.
pub fn too_long(alloc: Global, file: &str) -> Fault
    ensures { IsRefusal file.now too_long result }
{
    match format!(in alloc; "refused: {file}: too long\n") {
        Ok(line) => Fault::Refused(line),
        Err(_) => Fault::Memory,
    }
}

/// The fault of a file whose bytes are refused, in the words that the refusal shows.
pub fn refuse<R: Display + Copy>(alloc: Global, file: &str, refusal: R) -> Fault
    ensures { IfSome (R.output refusal) (λ words. IsRefusal file.now words result) }
{
    match format!(in alloc; "refused: {file}: {refusal}\n") {
        Ok(line) => Fault::Refused(line),
        Err(_) => Fault::Memory,
    }
}

// What the bytes of a file give.
fn value_of<K: FileKind>(
    alloc: Global,
    kind: &K,
    file: &str,
    bytes: &[u8],
) -> Result<K::Value, Fault>
    requires ready { K.is_ready kind.now }
    requires few { length bytes.now ≤ (K.kind kind.now).limit bytes.now }
    ensures reads { ReadsBytesOf (K.kind kind.now) file.now bytes.now result }
    ensures sound { IfOk result (K.IsSound kind.now) }
{
    match kind.read(alloc, bytes) {
        Ok(value) => Ok(value),
        Err(BytesFault::Refused(refusal)) => Err(refuse(alloc, file, refusal)),
        Err(BytesFault::Memory) => Err(Fault::Memory),
    }
}

/// What the file of this name gives, which is of this kind.
///
/// `Refused` comes only for bytes that reads of it gave, and `Read` only where a read of it failed in the call.
pub fn value_in<D: Depot, K: FileKind>(
    alloc: Global,
    depot: &mut D,
    kind: &K,
    file: &str,
) -> Result<K::Value, Fault>
    requires { K.is_ready kind.now }
    ensures reads { ReadsFile (K.kind kind.now) file.now (shown_by D.content D.gave D.faults depot.old)
        (shown_by D.content D.gave D.faults depot.new) result }
    ensures sound { IfOk result (K.IsSound kind.now) }
{
    match load_within(alloc, depot, file, &LimitOf { kind }) {
        Ok(bytes) => value_of(alloc, kind, file, &bytes),
        Err(LoadFault::TooLong) => Err(too_long(alloc, file)),
        Err(LoadFault::Failed) => Err(Fault::Read),
        Err(LoadFault::Memory) => Err(Fault::Memory),
    }
}
