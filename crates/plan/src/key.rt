//! The keys of a plan.

ghost use Rattle.std.specs.Prelude.{◌≡◌, Some};
ghost use Rattle.plan.specs.Words.{key_word};

use std::fmt::{self, Display, Formatter, Write};

/// A key of a plan, and `Plan` for the plan itself.
#[derive(Clone, Copy, Debug, PartialEq, Eq)]
pub enum Key {
    Plan,
    Topology,
    Matrices,
    Failures,
    Predictions,
    Schemes,
    Recovery,
    Publish,
    Margin,
    K,
    Budget,
    Trees,
    Seed,
    Seeds,
    Envelope,
}

impl Key {
    /// The key as it stands in a plan; `plan` for the plan itself.
    pub fn word(self) -> &'static str
        ensures { result.now ≡ key_word self }
    {
        match self {
            Key::Plan => "plan",
            Key::Topology => "topology",
            Key::Matrices => "matrices",
            Key::Failures => "failures",
            Key::Predictions => "predictions",
            Key::Schemes => "schemes",
            Key::Recovery => "recovery",
            Key::Publish => "publish",
            Key::Margin => "margin",
            Key::K => "k",
            Key::Budget => "budget",
            Key::Trees => "trees",
            Key::Seed => "seed",
            Key::Seeds => "seeds",
            Key::Envelope => "envelope",
        }
    }
}

impl Display for Key {
    ghost output = { λ key. Some (key_word key) };

    fn fmt<W: Write>(&self, f: &mut Formatter<W>) -> fmt::Result {
        f.write_str(self.word())
    }
}
