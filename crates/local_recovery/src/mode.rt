//! The ways to go on after a failure.

/// How traffic goes on where links of its paths have failed.
#[derive(Clone, Copy, Debug)]
pub enum Mode {
    /// As before: what comes to a failed link is lost.
    Keep,
    /// On the paths without a failed link, in proportion to their weights.
    Scale,
    /// Round each failed link, by the least path between its ends.
    Bypass,
}
