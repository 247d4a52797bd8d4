//! The order of lists of links.
ghost use Rattle.std.specs.Prelude.{◌≡◌};
ghost use Rattle.te_model.specs.Validity.{list_below};

/// Whether the first list comes before the second, as slices compare.
pub fn is_list_below(a: &[u32], b: &[u32]) -> bool
    ensures { result ≡ list_below a.now b.now }
{
    a < b
}
