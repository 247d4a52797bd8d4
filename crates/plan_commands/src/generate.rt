//! `gen NODES SEED`: the summary of a network that is drawn from a seed.
ghost use Rattle.std.specs.Prelude.{◌≡◌, ◌≤◌};
ghost use Rattle.std.specs.Option.{option_map};
ghost use Rattle.plan_commands.specs.Generate.{drawn_of};

use command_files::decimal_number;
use command_frame::{Answer, Ask, Fault};
use generation::summary;
use std::alloc::Global;
use te_ports::Depot;

/// `gen NODES SEED`, of 2 to 64 nodes. No file belongs to it.
#[derive(Clone, Copy)]
pub struct Generate {
    pub nodes: u32,
    pub seed: u64,
    ghost some: { 2 ≤ nodes },
    ghost few: { nodes ≤ 64 },
}

impl Ask for Generate {
    ghost use Rattle.plan_commands.specs.Generate.{generate_entry};

    ghost reading = { λ c. (generate_entry c.nodes c.seed).reading };

    fn answer<D: Depot>(&self, alloc: Global, _depot: &mut D) -> Result<Answer, Fault> {
        let text = summary(alloc, self.nodes, self.seed)?;
        Ok(Answer::Done(text))
    }
}

/// What is drawn, where the words are the decimals of a number of nodes and of a seed.
pub fn generate_of(nodes: &str, seed: &str) -> Option<Generate>
    ensures { option_map (λ g. (g.nodes, g.seed)) result ≡ drawn_of nodes.now seed.now }
{
    let nodes = decimal_number(nodes)?;
    let seed = decimal_number(seed)?;
    if !(2..=64).contains(&nodes) {
        return None;
    }
    Some(Generate {
        nodes: nodes as u32,
        seed,
    })
}
