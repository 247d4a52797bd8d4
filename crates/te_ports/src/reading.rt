//! Reading a whole file.
ghost use Rattle.std.specs.Prelude.{◌≡◌, ◌≢◌, ◌≤◌, ◌<◌, ◌^◌, [], ◌∷◌, ◌++◌, ℕ, List, length, IfOk, IsErrOf, Err};
ghost use Rattle.te_ports.specs.Ports.{Rose, Told};
ghost use Rattle.te_ports.specs.Limit.{IsLimit};
ghost use Rattle.te_ports.specs.Record.{Adds, AtMostOneRead, pass, IsBegun, IsRead, IsReadInPart, IsReadPast, IsReadPastAllowed, read};
ghost use Rattle.te_ports.specs.declared.reading.LoadFault.TheVariants.{Memory as OutOfMemory};

use crate::{Depot, Failed, Limit};
use std::alloc::{AllocError, Global};

/// Why a file was not loaded.
#[derive(Clone, Copy, Debug, PartialEq, Eq)]
pub enum LoadFault {
    /// A read failed.
    Failed,
    /// The file has more bytes than the limit.
    TooLong,
    /// Memory was short.
    Memory,
}

impl From<AllocError> for LoadFault {
    ghost from_gives = { λ _ e. e ≡ OutOfMemory };

    fn from(_: AllocError) -> Self {
        LoadFault::Memory
    }
}

impl From<Failed> for LoadFault {
    ghost use Rattle.std.specs.Prelude.{◌≡◌};
    ghost use Rattle.te_ports.specs.declared.reading.LoadFault.TheVariants.{Failed as ReadFailed};

    ghost from_gives = { λ _ e. e ≡ ReadFailed };

    fn from(_: Failed) -> Self {
        LoadFault::Failed
    }
}

// How many bytes are asked for at once.
const CHUNK: usize = 16_384;

/// Reads the file of a name from its start to the first fetch that gives nothing, or until more bytes were read than
/// the limit allows for them. Nothing else is read, and nothing twice.
///
/// `Failed` comes only where a read of this file failed in the call, `TooLong` only where reads gave one byte more than
/// the limit allows for them, and so only where a told file is longer than its limit.
pub fn load_within<D: Depot, L: Limit>(
    alloc: Global,
    depot: &mut D,
    name: &str,
    limit: &L,
) -> Result<Vec<u8>, LoadFault>
    requires { IsLimit (L.allowed limit.now) }

    // The reads of the call are those of one pass over the file, and the bytes are what they gave, told or not.
    ensures read { IfOk result (λ bytes. IsRead (pass name.now (D.gave depot.old) (D.gave depot.new)) bytes.items) }
    ensures past { IsErrOf result LoadFault.TooLong →
        IsReadPastAllowed (pass name.now (D.gave depot.old) (D.gave depot.new)) (L.allowed limit.now) }
    ensures part { IsErrOf result LoadFault.Failed →
        IsReadInPart (pass name.now (D.gave depot.old) (D.gave depot.new)) (L.allowed limit.now) }
    ensures begun { IsBegun (pass name.now (D.gave depot.old) (D.gave depot.new)) }
    ensures added { Adds (D.content depot.old) (D.gave depot.old) (D.gave depot.new) }
    ensures told { IfOk result (λ bytes. Told (D.content depot.old name.now) (λ told. bytes.items ≡ told)) }
    ensures within { IfOk result (λ bytes. length bytes.items ≤ L.allowed limit.now bytes.items) }
    ensures too_long { IsErrOf result LoadFault.TooLong →
        Told (D.content depot.old name.now) (λ told. L.allowed limit.now told < length told) }

    ensures failed { IsErrOf result LoadFault.Failed → Rose (D.faults depot.old name.now) (D.faults depot.new name.now) }
    ensures steady { result ≢ Err LoadFault.Failed → D.faults depot.new ≡ D.faults depot.old }
    ensures later { (other : List ℕ) → D.faults depot.old other ≤ D.faults depot.new other }
    ensures content { D.content depot.new ≡ D.content depot.old }
{
    let mut bytes = Vec::new(alloc);
    let mut allowed = limit.allowed(&bytes);
    let mut chunk = [0u8; CHUNK];
    'chunks: while bytes.len() as u64 <= allowed {
        let want = CHUNK.min((allowed + 1 - bytes.len() as u64) as usize);
        let count = append_piece(depot, name, &mut chunk[..want], &mut bytes)?;
        if count == 0 {
            return Ok(bytes);
        }
        allowed = limit.allowed(&bytes);
    }
    Err(LoadFault::TooLong)
}

// Reads once from where the bytes end, appends what the read gave, and answers how many bytes those are.
fn append_piece<D: Depot>(
    depot: &mut D,
    name: &str,
    chunk: &mut [u8],
    bytes: &mut Vec<u8>,
) -> Result<usize, LoadFault>
    requires { 0 < length chunk.old }
    ensures piece { IfOk result (λ n. (piece : List ℕ)
        × (D.gave depot.new ≡ D.gave depot.old ++ read name.now (length bytes.old.items) piece ∷ [])
        × (bytes.new.items ≡ bytes.old.items ++ piece) × (length piece ≡ n)) }
    ensures few { IfOk result (λ n. n ≤ length chunk.old) }
    ensures unread { IsErrOf result LoadFault.Failed → D.gave depot.new ≡ D.gave depot.old }
    ensures at_most_once { AtMostOneRead (D.gave depot.old) (D.gave depot.new) name.now (length bytes.old.items) }
    ensures added { Adds (D.content depot.old) (D.gave depot.old) (D.gave depot.new) }
    ensures failed { IsErrOf result LoadFault.Failed → Rose (D.faults depot.old name.now) (D.faults depot.new name.now) }
    ensures not_too_long { result ≢ Err LoadFault.TooLong }
    ensures steady { result ≢ Err LoadFault.Failed → D.faults depot.new ≡ D.faults depot.old }
    ensures later { (other : List ℕ) → D.faults depot.old other ≤ D.faults depot.new other }
    ensures content { D.content depot.new ≡ D.content depot.old }
{
    let at = bytes.len() as u64;
    let count = depot.fetch(name, at, chunk)?;
    bytes.extend_from_slice(&chunk[..count])?;
    Ok(count)
}

/// Reads a file as `load_within` does, with one limit for all files.
pub fn load<D: Depot>(
    alloc: Global,
    depot: &mut D,
    name: &str,
    limit: u64,
) -> Result<Vec<u8>, LoadFault>
    requires { limit ≤ 2 ^ 30 }

    // The reads of the call are those of one pass over the file, and the bytes are what they gave, told or not.
    ensures read { IfOk result (λ bytes. IsRead (pass name.now (D.gave depot.old) (D.gave depot.new)) bytes.items) }
    ensures past { IsErrOf result LoadFault.TooLong → IsReadPast (pass name.now (D.gave depot.old) (D.gave depot.new)) limit }
    ensures part { IsErrOf result LoadFault.Failed →
        IsReadInPart (pass name.now (D.gave depot.old) (D.gave depot.new)) (λ _. limit) }
    ensures begun { IsBegun (pass name.now (D.gave depot.old) (D.gave depot.new)) }
    ensures added { Adds (D.content depot.old) (D.gave depot.old) (D.gave depot.new) }
    ensures told { IfOk result (λ bytes. Told (D.content depot.old name.now) (λ told. bytes.items ≡ told)) }
    ensures within { IfOk result (λ bytes. length bytes.items ≤ limit) }
    ensures too_long { IsErrOf result LoadFault.TooLong → Told (D.content depot.old name.now) (λ told. limit < length told) }

    ensures failed { IsErrOf result LoadFault.Failed → Rose (D.faults depot.old name.now) (D.faults depot.new name.now) }
    ensures steady { result ≢ Err LoadFault.Failed → D.faults depot.new ≡ D.faults depot.old }
    ensures later { (other : List ℕ) → D.faults depot.old other ≤ D.faults depot.new other }
    ensures content { D.content depot.new ≡ D.content depot.old }
{
    load_within(alloc, depot, name, &limit)
}
