//! The flows that ask each link in a round.
use std::alloc::Global;
use std::marker::Model;
use te_model::Memory;

/// The flows that ask one link in one round, in order of pair and path.
#[derive(Drop)]
pub struct Queue {
    flows: Vec<u32>,
}

impl Model for Queue {
    ghost use Rattle.std.specs.Prelude.{ℕ, List};

    ghost Value = { List ℕ };

    ghost view = { λ q. q.flows.items };
}

impl Queue {
    ghost use Rattle.std.specs.Prelude.{◌≡◌, [], ◌∷◌, ◌++◌, OnOk};

    /// A queue in which no flow stands.
    pub fn new(alloc: Global) -> Queue
        ensures { result ≡ [] }
    {
        Queue {
            flows: Vec::new(alloc),
        }
    }

    /// Lends the flows.
    pub fn as_slice(&self) -> &[u32]
        ensures { result.now ≡ self.now }
    {
        self.flows.as_slice()
    }

    /// Adds a flow at the end.
    pub fn push(&mut self, flow: u32) -> Result<(), Memory>
        ensures { OnOk result (self.new ≡ self.old ++ flow ∷ []) }
    {
        self.flows.push(flow)?;
        Ok(())
    }
}

/// The queue of each link in one round.
#[derive(Drop)]
pub struct Round {
    queues: Vec<Queue>,
}

impl Model for Round {
    ghost use Rattle.std.specs.Prelude.{ℕ, List};

    ghost Value = { List (List ℕ) };

    ghost view = { λ r. r.queues.items };
}

impl Round {
    ghost use Rattle.std.specs.Prelude.{◌≡◌, ◌<◌, [], ◌∷◌, ◌++◌, All, IfOk, OnOk, length, slice_index_or, slice_set};

    /// A round with an empty queue for each link.
    pub fn empty(alloc: Global, links: usize) -> Result<Round, Memory>
        ensures { IfOk result (λ r. (length r ≡ links) × All (λ q. q ≡ []) r) }
    {
        let mut queues = Vec::with_capacity(alloc, links)?;
        for _ in 0..links {
            queues.push(Queue::new(alloc))?;
        }
        Ok(Round { queues })
    }

    /// Lends the queue of a link.
    pub fn queue(&self, link: usize) -> &[u32]
        requires { link < length self.now }
        ensures { result.now ≡ slice_index_or self.now link [] }
    {
        self.queues[link].as_slice()
    }

    /// Adds a flow to the queue of a link.
    pub fn add(&mut self, link: usize, flow: u32) -> Result<(), Memory>
        requires { link < length self.old }
        ensures { OnOk result (self.new ≡ slice_set self.old link (slice_index_or self.old link [] ++ flow ∷ [])) }
    {
        self.queues[link].push(flow)
    }
}
