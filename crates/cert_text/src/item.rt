//! Reading the lists of a certificate.
ghost use Rattle.std.specs.Prelude.{◌≡◌, ℕ, IfOk};
ghost use Rattle.std.specs.declared.result.Result.{Result};
ghost use Rattle.cert_text.specs.Place.{Place, Reads};
ghost use Rattle.cert_text.specs.Reading.{read_many};
ghost use Rattle.cert_text.specs.Takes.{Takes};
ghost use Rattle.cert_text.specs.Listed.{IsListOf};

use crate::cursor::Cursor;
use crate::fault::Stop;
use crate::reader::Reader;
use std::alloc::Global;
use te_model::Items;

/// How an item of a list is read.
pub(crate) trait Item {
    /// What the item is.
    type Value: Drop;

    /// Reading of it.
    ghost reading: { Self → Place → Result (Self.Value × Place) ℕ };

    /// What holds of it.
    ghost Fits: { Self → Self.Value → Type 0 };

    /// Reads it.
    ///
    /// # Errors
    ///
    /// `Stop::Shape` with the first line that is not so; `Stop::Memory` where memory is short.
    fn read<C: Cursor>(&self, r: &mut Reader<C>, alloc: Global) -> Result<Self::Value, Stop>
        ensures fits { IfOk result (λ x. Fits self.now x) }
        ensures takes { Takes r.old r.new (Reads result) (reading self.now) };
}

/// So many items, one after the other.
///
/// # Errors
///
/// Those of the first item that is not read; `Stop::Memory` where memory is short.
pub(crate) fn many<C: Cursor, T: Item>(
    r: &mut Reader<C>,
    alloc: Global,
    count: u64,
    item: &T,
) -> Result<Items<T::Value>, Stop>
    ensures fits { IfOk result (λ xs. IsListOf count (T.Fits item.now) xs) }
    ensures takes { Takes r.old r.new (Reads result) (read_many count (T.reading item.now)) }
{
    let mut items = Vec::with_capacity(alloc, count as usize)?;
    for _ in 0..count {
        let next = item.read(r, alloc)?;
        items.push(next)?;
    }
    Ok(Items::new(items))
}
