//! Laws of a certificate's routing, simulated. A law is the contract of a function that does nothing.
ghost use Rattle.certificate_simulation.specs.Laws.{CertificateReportsExist, ReportsAreWithinRatio};

/// Where the ratio of a head is an oblivious ratio of its routing, the `parts` of each row of a matrix of its set are at most the ratio
/// times what any routing of that matrix needs, rounded up, whichever links fail.
pub fn reports_are_within_ratio()
    ensures { ReportsAreWithinRatio }
{}

/// There is a report of each valid head over each series.
pub fn certificate_reports_exist()
    ensures { CertificateReportsExist }
{}
