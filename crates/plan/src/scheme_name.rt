//! Routing schemes by their names in a plan.

ghost use Rattle.std.specs.Prelude.{◌≡◌, Some};
ghost use Rattle.plan.specs.Words.{scheme_named, scheme_word, draws, is_oblivious};

/// A routing scheme, by its name in a plan.
#[derive(Clone, Copy, Debug, PartialEq, Eq)]
pub enum SchemeName {
    /// `spf`: least paths by cost.
    Spf,
    /// `ecmp`: an equal split over the next links of least-cost paths.
    Ecmp,
    /// `ksp`: the k least loopless paths.
    Ksp,
    /// `mcf`: multicommodity flow by multiplicative lengths.
    Mcf,
    /// `racke`: a mix of decomposition trees.
    Racke,
    /// `smore`: rates adapted on the fixed paths of `racke`.
    Smore,
    /// `valiant`: even parts by way of every node.
    Valiant,
    /// `robust`: one routing of a small oblivious ratio, found by sweeps.
    Robust,
}

impl SchemeName {
    /// What a plan without a list of schemes compares, in this order.
    pub const DEFAULT: [SchemeName; 6] = [
        SchemeName::Spf,
        SchemeName::Ecmp,
        SchemeName::Ksp,
        SchemeName::Mcf,
        SchemeName::Racke,
        SchemeName::Smore,
    ];

    /// The scheme as a plan names it.
    pub fn word(self) -> &'static str
        ensures word { result.now ≡ scheme_word self }
        ensures named { scheme_named result.now ≡ Some self }
    {
        match self {
            SchemeName::Spf => "spf",
            SchemeName::Ecmp => "ecmp",
            SchemeName::Ksp => "ksp",
            SchemeName::Mcf => "mcf",
            SchemeName::Racke => "racke",
            SchemeName::Smore => "smore",
            SchemeName::Valiant => "valiant",
            SchemeName::Robust => "robust",
        }
    }

    /// The scheme of a name, where there is one.
    pub fn from_word(text: &str) -> Option<SchemeName>
        ensures { result ≡ scheme_named text.now }
    {
        if text == "spf" {
            Some(SchemeName::Spf)
        } else if text == "ecmp" {
            Some(SchemeName::Ecmp)
        } else if text == "ksp" {
            Some(SchemeName::Ksp)
        } else if text == "mcf" {
            Some(SchemeName::Mcf)
        } else if text == "racke" {
            Some(SchemeName::Racke)
        } else if text == "smore" {
            Some(SchemeName::Smore)
        } else if text == "valiant" {
            Some(SchemeName::Valiant)
        } else if text == "robust" {
            Some(SchemeName::Robust)
        } else {
            None
        }
    }

    /// Whether it draws from the seed.
    pub fn draws(self) -> bool
        ensures { result ≡ draws self }
    {
        match self {
            SchemeName::Racke | SchemeName::Smore => true,
            SchemeName::Spf
            | SchemeName::Ecmp
            | SchemeName::Ksp
            | SchemeName::Mcf
            | SchemeName::Valiant
            | SchemeName::Robust => false,
        }
    }

    /// Whether its routing is the same for every matrix, so that it can be published.
    pub fn is_oblivious(self) -> bool
        ensures { result ≡ is_oblivious self }
    {
        match self {
            SchemeName::Spf
            | SchemeName::Ecmp
            | SchemeName::Ksp
            | SchemeName::Racke
            | SchemeName::Valiant
            | SchemeName::Robust => true,
            SchemeName::Mcf | SchemeName::Smore => false,
        }
    }
}
