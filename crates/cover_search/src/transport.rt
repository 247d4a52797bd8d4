//! Numbers that cover the shares on a link, and a matrix within the hose over shares that they cover with nothing to spare (the
//! transportation problem and its dual; Kuhn, 1955; Ford and Fulkerson, 1956).
ghost use Rattle.std.specs.Prelude.{◌≡◌, ℕ, ◌+◌, ◌^◌, ◌<◌, ◌≤◌, length, slice_index};
ghost use Rattle.te_model.specs.declared.units.TheConstants.{SHARE_UNIT};
ghost use Rattle.cover_search.specs.Transport.{IsTight, IsTransport, end_share, slack_of};
ghost use Rattle.cover_search.specs.Ways.{IsMoved, added_at, put_at, taken_at};

use te_model::{Items, number_at};

/// A share to be covered by the numbers of its two ends.
#[derive(Clone, Copy)]
pub struct EndShare {
    pub source: u32,
    pub destination: u32,
    /// In millionths.
    pub share: u64,
}

/// Numbers that cover, and a matrix.
#[derive(Drop)]
pub struct Transport {
    pub tails: Items<u64>,
    pub heads: Items<u64>,
    /// What goes over each share.
    pub demand: Items<u64>,
    /// What each node may send beside that.
    pub unsent: Items<u64>,
    /// What each node may receive beside that.
    pub unreceived: Items<u64>,
}

/// Sets the number of a place.
pub fn put(numbers: &mut Items<u64>, place: usize, value: u64)
    requires place { place < length numbers.old }
    ensures count { length numbers.new ≡ length numbers.old }
    ensures put { (i : ℕ) → slice_index numbers.new i ≡ put_at (slice_index numbers.old) place value i }
{
    numbers.set(place, value);
}

// Adds to the number of a place.
fn add_at(numbers: &mut Items<u64>, place: usize, amount: u64)
    requires place { place < length numbers.old }
    requires room { slice_index numbers.old place + amount < 2 ^ 64 }
    ensures count { length numbers.new ≡ length numbers.old }
    ensures added { (i : ℕ) → slice_index numbers.new i ≡ added_at (slice_index numbers.old) place amount i }
{
    let sum = numbers.as_slice()[place] + amount;
    numbers.set(place, sum);
}

// Takes from the number of a place.
fn take_at(numbers: &mut Items<u64>, place: usize, amount: u64)
    requires place { place < length numbers.old }
    requires enough { amount ≤ slice_index numbers.old place }
    ensures count { length numbers.new ≡ length numbers.old }
    ensures taken { (i : ℕ) → slice_index numbers.new i ≡ taken_at (slice_index numbers.old) place amount i }
{
    let rest = numbers.as_slice()[place] - amount;
    numbers.set(place, rest);
}

/// Sends an amount over share k.
pub fn send(transport: &mut Transport, shares: &[EndShare], k: usize, amount: u64)
    requires transport { IsTransport shares.now transport.old }
    requires share { k < length shares.now }
    requires tight { IsTight shares.now transport.old k }
    requires sent { amount ≤ slice_index transport.old.unsent (end_share shares.now k).source }
    requires received { amount ≤ slice_index transport.old.unreceived (end_share shares.now k).destination }
    ensures moved { IsMoved shares.now transport.old transport.new }
    ensures sent { (i : ℕ) → slice_index transport.new.unsent i ≡ taken_at (slice_index transport.old.unsent) (end_share shares.now k).source amount i }
{
    let ends = shares[k];
    add_at(&mut transport.demand, k, amount);
    take_at(&mut transport.unsent, ends.source as usize, amount);
    take_at(&mut transport.unreceived, ends.destination as usize, amount);
}

/// Sends an amount over share k in place of share back, which has the same destination.
pub fn exchange(transport: &mut Transport, shares: &[EndShare], k: usize, back: usize, amount: u64)
    requires transport { IsTransport shares.now transport.old }
    requires share { k < length shares.now }
    requires tight { IsTight shares.now transport.old k }
    requires back { back < length shares.now }
    requires end { (end_share shares.now k).destination ≡ (end_share shares.now back).destination }
    requires sent { amount ≤ slice_index transport.old.unsent (end_share shares.now k).source }
    requires demand { amount ≤ slice_index transport.old.demand back }
    ensures moved { IsMoved shares.now transport.old transport.new }
    ensures sent { (i : ℕ) → slice_index transport.new.unsent i ≡ added_at (taken_at (slice_index transport.old.unsent) (end_share shares.now k).source amount) (end_share shares.now back).source amount i }
    ensures demand { (i : ℕ) → slice_index transport.new.demand i ≡ added_at (taken_at (slice_index transport.old.demand) back amount) k amount i }
    ensures received { transport.new.unreceived ≡ transport.old.unreceived }
{
    take_at(&mut transport.demand, back, amount);
    add_at(&mut transport.demand, k, amount);
    take_at(&mut transport.unsent, shares[k].source as usize, amount);
    add_at(&mut transport.unsent, shares[back].source as usize, amount);
}

/// What the numbers of its ends are above the share.
pub fn slack(transport: &Transport, ends: EndShare) -> u64
    requires tails { (i : ℕ) → slice_index transport.now.tails i ≤ SHARE_UNIT }
    requires heads { (i : ℕ) → slice_index transport.now.heads i ≤ SHARE_UNIT }
    ensures { result ≡ slack_of transport.now ends }
{
    let tail = number_at(transport.tails.as_slice(), ends.source as usize);
    let head = number_at(transport.heads.as_slice(), ends.destination as usize);
    (tail + head).saturating_sub(ends.share)
}
