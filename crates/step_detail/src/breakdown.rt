//! By what a step is broken down.

/// By what a step is broken down. Each has a table of lines, whose fields its header names.
#[derive(Clone, Copy, Debug)]
pub enum Breakdown {
    /// A line for each link: what it is asked to carry, and what it carries.
    Links,
    /// A line for each declared pair: what became of its demand, and what its paths cost.
    Pairs,
    /// A line for each path that a demand takes.
    Paths,
}

impl Breakdown {
    ghost use Rattle.std.specs.Prelude.{◌≡◌};
    ghost use Rattle.step_detail.specs.Breakdown.{header_of};

    /// The header of the table, a line that names its fields.
    pub fn header(self) -> &'static str
        ensures { result.now ≡ header_of self }
    {
        match self {
            Breakdown::Links => {
                "scheme,link,source,target,capacity,failed,asked,carried,asked_parts,carried_parts\n"
            }
            Breakdown::Pairs => {
                "scheme,source,target,offered,delivered,lost_full,lost_failed,lost_no_path,paths,cost,least_cost\n"
            }
            Breakdown::Paths => "scheme,source,target,weight,links\n",
        }
    }
}
