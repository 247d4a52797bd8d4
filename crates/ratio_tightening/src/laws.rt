//! What is known of tightened certificates beyond any one call.
ghost use Rattle.ratio_tightening.specs.Laws.{TightenedCertificatesExist, TightenedIsTighter, TightenedLowersRatio};

/// A valid certificate of which the first three inequalities hold has a tightened one, and each tightened one is tighter: it is valid, its
/// inequalities hold, its blocks are polished, and it needs no more. Its ratio is no greater than one that holds.
pub fn tightened_certificates_are_tighter()
    ensures exist { TightenedCertificatesExist }
    ensures tighter { TightenedIsTighter }
    ensures lowers { TightenedLowersRatio }
{}
