//! The bytes of a file that stand ready, fetched piece by piece.
ghost use Rattle.std.specs.Prelude.{◌≡◌, ◌≢◌, ◌≤◌, ◌<◌, ◌+◌, ◌-◌, ◌⊎◌, ◌^◌, ℕ, List, [], ◌++◌, length, take, drop, vec_len, IfOk, OnErr, true, false};
ghost use Rattle.te_ports.specs.Ports.{Rose, Told};
ghost use Rattle.te_ports.specs.Limit.{IsLimit};
ghost use Rattle.te_ports.specs.Record.{Adds, Read, pass};
ghost use Rattle.block_reader.specs.declared.window.State.{State};
ghost use Rattle.block_reader.specs.Fetching.{state_after};

use std::alloc::{AllocError, Global};
use te_ports::{Depot, Failed, Limit};

/// What became of a file.
#[derive(Clone, Copy, Debug, PartialEq, Eq)]
pub enum State {
    /// There may be more.
    Open,
    /// All was fetched.
    Ended,
    /// A read failed.
    Failed,
    /// One byte more was fetched than the limit allows.
    TooLong,
}

// What a read with this answer makes of a file that was open, of which so many bytes are fetched by then.
fn state_after(answer: Result<usize, Failed>, fetched: u64, limit: u64) -> State
    ensures { result ≡ state_after answer fetched limit }
{
    match answer {
        Err(Failed) => State::Failed,
        Ok(0) => State::Ended,
        Ok(_) if fetched > limit => State::TooLong,
        Ok(_) => State::Open,
    }
}

/// The bytes of a file that stand ready: those that were fetched and not yet passed.
#[derive(Drop)]
pub struct Window {
    bytes: Vec<u8>,
    start: usize,
    end: usize,
    fetched: u64,
    limit: u64,
    state: State,
    ghost some: { 1 ≤ vec_len bytes },
    ghost ordered: { start ≤ end },
    ghost inside: { end ≤ vec_len bytes },
    ghost counted: { end - start ≤ fetched },
    ghost small: { limit ≤ 2 ^ 30 },
    ghost below: { fetched ≤ limit + 1 },
    ghost within: { state ≢ State.TooLong → fetched ≤ limit },
    ghost past: { state ≡ State.TooLong → fetched ≡ limit + 1 },
}

impl Window {
    ghost use Rattle.block_reader.specs.Standing.{ready, fetched_of, state_of, room_of, limit_of, reads_left, StandsIn, StandsAt};

    /// Room for so many bytes of a file of at most `limit` bytes, of which none was fetched yet. `AllocError` where memory
    /// is short.
    pub fn new(alloc: Global, room: usize, limit: u64) -> Result<Window, AllocError>
        requires some { 1 ≤ room }
        requires small { limit ≤ 2 ^ 30 }
        ensures ready { IfOk result (λ w. ready w ≡ []) }
        ensures fetched { IfOk result (λ w. fetched_of w ≡ 0) }
        ensures room { IfOk result (λ w. room_of w ≡ room) }
        ensures limit { IfOk result (λ w. limit_of w ≡ limit) }
        ensures state { IfOk result (λ w. state_of w ≡ State.Open) }
    {
        Ok(Window {
            bytes: vec![in alloc; 0; room]?,
            start: 0,
            end: 0,
            fetched: 0,
            limit,
            state: State::Open,
        })
    }

    /// The first bytes of a file, so many or all that it has. The limit is the one for a file that begins with them.
    ///
    /// `AllocError`, where nothing was read, comes only where memory is short.
    pub fn at_start<D: Depot, L: Limit>(
        alloc: Global,
        depot: &mut D,
        name: &str,
        limit: &L,
        wanted: usize,
        room: usize,
    ) -> Result<Window, AllocError>
        requires limit { IsLimit (L.allowed limit.now) }
        requires some { 1 ≤ room }
        requires fits { wanted ≤ room }
        requires least { room ≤ L.allowed limit.now [] }
        ensures stands { IfOk result (λ w. StandsAt (pass name.now (D.gave depot.old) (D.gave depot.new)) w []) }
        ensures told { IfOk result (λ w. Told (D.content depot.old name.now) (λ told. StandsIn told w [])) }
        ensures limit { IfOk result (λ w. limit_of w ≡ L.allowed limit.now (ready w)) }
        ensures enough { IfOk result (λ w. state_of w ≡ State.Open → wanted ≤ length (ready w)) }
        ensures within { IfOk result (λ w. state_of w ≢ State.TooLong) }
        ensures room { IfOk result (λ w. room_of w ≡ room) }
        ensures failed { IfOk result (λ w. state_of w ≡ State.Failed →
            Rose (D.faults depot.old name.now) (D.faults depot.new name.now)) }
        ensures steady { IfOk result (λ w. state_of w ≢ State.Failed → D.faults depot.new ≡ D.faults depot.old) }
        ensures memory { OnErr result (D.faults depot.new ≡ D.faults depot.old) }
        ensures unread { OnErr result (D.gave depot.new ≡ D.gave depot.old) }
        ensures later { (other : List ℕ) → D.faults depot.old other ≤ D.faults depot.new other }
        ensures added { Adds (D.content depot.old) (D.gave depot.old) (D.gave depot.new) }
        ensures content { D.content depot.new ≡ D.content depot.old }
    {
        let mut window = Window::new(alloc, room, limit.allowed(&[]))?;
        window.fill(depot, name, wanted);
        let allowed = limit.allowed(window.ready());
        window.raise(allowed);
        Ok(window)
    }

    /// What became of the file.
    pub fn state(&self) -> State
        ensures { result ≡ state_of self.now }
    {
        self.state
    }

    /// The bytes that stand ready.
    pub fn ready(&self) -> &[u8]
        ensures { result.now ≡ ready self.now }
    {
        &self.bytes[self.start..self.end]
    }

    /// Allows more bytes.
    pub fn raise(&mut self, limit: u64)
        requires small { limit ≤ 2 ^ 30 }
        requires more { limit_of self.old ≤ limit }
        requires within { state_of self.old ≢ State.TooLong }
        ensures limit { limit_of self.new ≡ limit }
        ensures ready { ready self.new ≡ ready self.old }
        ensures fetched { fetched_of self.new ≡ fetched_of self.old }
        ensures state { state_of self.new ≡ state_of self.old }
        ensures room { room_of self.new ≡ room_of self.old }
    {
        self.limit = limit;
    }

    /// Goes past so many bytes.
    pub fn pass(&mut self, count: usize)
        requires { count ≤ length (ready self.old) }
        ensures ready { ready self.old ≡ take count (ready self.old) ++ ready self.new }
        ensures fetched { fetched_of self.new ≡ fetched_of self.old }
        ensures state { state_of self.new ≡ state_of self.old }
        ensures room { room_of self.new ≡ room_of self.old }
        ensures limit { limit_of self.new ≡ limit_of self.old }
        ensures told { (content passed : List ℕ) → StandsIn content self.old passed →
            StandsIn content self.new (passed ++ take count (ready self.old)) }
    {
        self.start += count;
    }

    // Goes past all bytes that stand ready.
    fn clear(&mut self)
        ensures ready { ready self.new ≡ [] }
        ensures end { self.new.end ≡ 0 }
        ensures fetched { fetched_of self.new ≡ fetched_of self.old }
        ensures state { state_of self.new ≡ state_of self.old }
        ensures room { room_of self.new ≡ room_of self.old }
        ensures limit { limit_of self.new ≡ limit_of self.old }
    {
        self.start = 0;
        self.end = 0;
    }

    // Moves the bytes that stand ready to the front.
    fn compact(&mut self)
        ensures ready { ready self.new ≡ ready self.old }
        ensures front { self.new.start ≡ 0 }
        ensures fetched { fetched_of self.new ≡ fetched_of self.old }
        ensures state { state_of self.new ≡ state_of self.old }
        ensures room { room_of self.new ≡ room_of self.old }
        ensures limit { limit_of self.new ≡ limit_of self.old }
    {
        self.bytes
            .as_mut_slice()
            .copy_within(self.start..self.end, 0);
        self.end -= self.start;
        self.start = 0;
    }

    // How many bytes the next read asks for: those that fit behind the ones that stand ready, up to one more than the limit
    // allows.
    fn space(&self) -> usize
        requires is_open { state_of self.now ≡ State.Open }
        requires space { self.now.end < vec_len self.now.bytes }
        ensures some { 1 ≤ result }
        ensures inside { self.now.end + result ≤ vec_len self.now.bytes }
        ensures below { fetched_of self.now + result ≤ limit_of self.now + 1 }
    {
        let left = (self.limit + 1 - self.fetched) as usize;
        (self.bytes.len() - self.end).min(left)
    }

    // Fetches some bytes behind those that stand ready.
    fn fetch<D: Depot>(&mut self, depot: &mut D, name: &str)
        requires is_open { state_of self.old ≡ State.Open }
        requires space { self.old.end < vec_len self.old.bytes }
        ensures stands { (before : List Read) → (passed : List ℕ) → StandsAt (pass name.now before (D.gave depot.old)) self.old passed →
            StandsAt (pass name.now before (D.gave depot.new)) self.new passed }
        ensures told { Told (D.content depot.old name.now) (λ told. (passed : List ℕ) →
            StandsIn told self.old passed → StandsIn told self.new passed) }
        ensures behind { (more : List ℕ) × (ready self.new ≡ ready self.old ++ more) }
        ensures count { fetched_of self.new + length (ready self.old) ≡ fetched_of self.old + length (ready self.new) }
        ensures fewer { reads_left self.new < reads_left self.old }
        ensures front { self.new.start ≡ self.old.start }
        ensures room { room_of self.new ≡ room_of self.old }
        ensures limit { limit_of self.new ≡ limit_of self.old }
        ensures failed { state_of self.new ≡ State.Failed →
            Rose (D.faults depot.old name.now) (D.faults depot.new name.now) }
        ensures steady { state_of self.new ≢ State.Failed → D.faults depot.new ≡ D.faults depot.old }
        ensures later { (other : List ℕ) → D.faults depot.old other ≤ D.faults depot.new other }
        ensures added { Adds (D.content depot.old) (D.gave depot.old) (D.gave depot.new) }
        ensures content { D.content depot.new ≡ D.content depot.old }
    {
        let space = self.space();
        let end = self.end;
        let answer = depot.fetch(name, self.fetched, &mut self.bytes[end..end + space]);
        let count = answer.unwrap_or(0);
        self.end += count;
        self.fetched += count as u64;
        self.state = state_after(answer, self.fetched, self.limit);
    }

    // Whether fewer bytes stand ready than are asked for, and there may be more.
    fn needs(&self, wanted: usize) -> bool
        ensures is_open { result ≡ true → state_of self.now ≡ State.Open }
        ensures few { result ≡ true → self.now.end < self.now.start + wanted }
        ensures enough { result ≡ false → state_of self.now ≡ State.Open → wanted ≤ length (ready self.now) }
    {
        self.state == State::Open && self.end - self.start < wanted
    }

    /// Makes as many bytes stand ready as are asked for, or all that are left. Past the limit nothing is read, and nothing
    /// after a read that failed.
    pub fn fill<D: Depot>(&mut self, depot: &mut D, name: &str, wanted: usize)
        requires { wanted ≤ room_of self.old }
        ensures stands { (before : List Read) → (passed : List ℕ) → StandsAt (pass name.now before (D.gave depot.old)) self.old passed →
            StandsAt (pass name.now before (D.gave depot.new)) self.new passed }
        ensures told { Told (D.content depot.old name.now) (λ told. (passed : List ℕ) →
            StandsIn told self.old passed → StandsIn told self.new passed) }
        ensures enough { state_of self.new ≡ State.Open → wanted ≤ length (ready self.new) }
        ensures behind { (more : List ℕ) × (ready self.new ≡ ready self.old ++ more) }
        ensures count { fetched_of self.new + length (ready self.old) ≡ fetched_of self.old + length (ready self.new) }
        ensures closed { state_of self.old ≢ State.Open → (state_of self.new ≡ state_of self.old) × (ready self.new ≡ ready self.old) }
        ensures room { room_of self.new ≡ room_of self.old }
        ensures limit { limit_of self.new ≡ limit_of self.old }
        ensures failed { state_of self.new ≡ State.Failed → (state_of self.old ≡ State.Failed) ⊎
            Rose (D.faults depot.old name.now) (D.faults depot.new name.now) }
        ensures steady { (state_of self.new ≢ State.Failed) ⊎ (state_of self.old ≢ State.Open) →
            D.faults depot.new ≡ D.faults depot.old }
        ensures later { (other : List ℕ) → D.faults depot.old other ≤ D.faults depot.new other }
        ensures added { Adds (D.content depot.old) (D.gave depot.old) (D.gave depot.new) }
        ensures content { D.content depot.new ≡ D.content depot.old }
    {
        if self.state != State::Open {
            return;
        }
        if self.bytes.len() - self.start < wanted {
            self.compact();
        }
        'pieces: while self.needs(wanted) {
            self.fetch(depot, name);
        }
    }

    /// Goes past all that is left of the file, to its end, past its limit, or to a read that fails.
    pub fn drain<D: Depot>(&mut self, depot: &mut D, name: &str)
        ensures stands { (before : List Read) → (passed : List ℕ) → StandsAt (pass name.now before (D.gave depot.old)) self.old passed →
            (more : List ℕ) × StandsAt (pass name.now before (D.gave depot.new)) self.new (passed ++ more) }
        ensures told { Told (D.content depot.old name.now) (λ told. (passed : List ℕ) → StandsIn told self.old passed →
            (more : List ℕ) × StandsIn told self.new (passed ++ more)) }
        ensures none { ready self.new ≡ [] }
        ensures count { fetched_of self.old ≤ fetched_of self.new }
        ensures still { state_of self.old ≢ State.Open → fetched_of self.new ≡ fetched_of self.old }
        ensures closed { state_of self.new ≢ State.Open }
        ensures same { state_of self.old ≢ State.Open → state_of self.new ≡ state_of self.old }
        ensures room { room_of self.new ≡ room_of self.old }
        ensures limit { limit_of self.new ≡ limit_of self.old }
        ensures failed { state_of self.new ≡ State.Failed → (state_of self.old ≡ State.Failed) ⊎
            Rose (D.faults depot.old name.now) (D.faults depot.new name.now) }
        ensures steady { (state_of self.new ≢ State.Failed) ⊎ (state_of self.old ≢ State.Open) →
            D.faults depot.new ≡ D.faults depot.old }
        ensures later { (other : List ℕ) → D.faults depot.old other ≤ D.faults depot.new other }
        ensures added { Adds (D.content depot.old) (D.gave depot.old) (D.gave depot.new) }
        ensures content { D.content depot.new ≡ D.content depot.old }
    {
        self.clear();
        'rest: while self.state == State::Open {
            self.fetch(depot, name);
            self.clear();
        }
    }
}
