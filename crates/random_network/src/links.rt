//! The links of a drawn network, which take the words of a generator in order.
ghost use Rattle.std.specs.Prelude.{◌≡◌, ◌≤◌, ◌+◌, ◌*◌, ◌^◌, ◌<◌, ◌++◌, ◌/◌, ℕ, OnOk};
ghost use Rattle.random_words.specs.Words.{generator, word_on};
ghost use Rattle.random_network.specs.Drawn.{both_ways, chords_of, ring_of};

use rand_chacha::ChaCha8Rng;
use random_words::draw;
use te_model::{Link, Memory};

fn link(tail: u32, head: u32, capacity: u64, cost: u32) -> Link
    ensures { result ≡ record { tail = tail; head = head; capacity = capacity; cost = cost } }
{
    Link {
        tail,
        head,
        capacity,
        cost,
    }
}

// Draws a capacity and a cost, and adds the links from one node to the other and back with both.
fn add_both_ways(rng: &mut ChaCha8Rng, links: &mut Vec<Link>, i: u32, j: u32) -> Result<(), Memory>
    requires { rng.old.word_pos + 2 < 2 ^ 68 }
    ensures links { OnOk result (links.new.items ≡ links.old.items ++ both_ways i j (word_on rng.old 0) (word_on rng.old 1)) }
    ensures state { OnOk result (rng.new ≡ record rng.old { word_pos = rng.old.word_pos + 2 }) }
{
    let capacity = 1000 * (1 + u64::from(draw(rng) % 10));
    let cost = 1 + draw(rng) % 10;
    links.push(link(i, j, capacity, cost))?;
    links.push(link(j, i, capacity, cost))?;
    Ok(())
}

/// Draws the ring: from each node to the next one and back.
pub fn add_ring(rng: &mut ChaCha8Rng, links: &mut Vec<Link>, nodes: u32) -> Result<(), Memory>
    requires some { 1 ≤ nodes }
    requires few { nodes ≤ 64 }
    requires start { rng.old.word_pos ≡ 0 }
    ensures ring { (seed : ℕ) → rng.old ≡ generator seed 2 0 → OnOk result (links.new.items ≡ links.old.items ++ ring_of nodes seed) }
    ensures state { (seed : ℕ) → rng.old ≡ generator seed 2 0 → OnOk result (rng.new ≡ generator seed 2 (2 * nodes)) }
{
    for i in 0..nodes {
        add_both_ways(rng, links, i, (i + 1) % nodes)?;
    }
    Ok(())
}

/// Draws the chords, where there are four nodes or more: from each node of the first half to one that is not beside it and back.
pub fn add_chords(rng: &mut ChaCha8Rng, links: &mut Vec<Link>, nodes: u32) -> Result<(), Memory>
    requires few { nodes ≤ 64 }
    requires start { rng.old.word_pos ≡ 2 * nodes }
    ensures { (seed : ℕ) → rng.old ≡ generator seed 2 (2 * nodes) → OnOk result (links.new.items ≡ links.old.items ++ chords_of nodes seed) }
{
    if nodes < 4 {
        return Ok(());
    }
    for i in 0..nodes / 2 {
        let target = (i + 2 + draw(rng) % (nodes - 3)) % nodes;
        add_both_ways(rng, links, i, target)?;
    }
    Ok(())
}
