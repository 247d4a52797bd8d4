//! What is known of made certificates beyond any one call.
ghost use Rattle.ratio_certificate.specs.Laws.{BoundedBlocksNeedLittleMore, MadeCertificatesExist};

/// A routing and a set within the limits have a certificate as `make` makes it; between bounds it is within one for all matrices.
pub fn made_certificates_exist()
    ensures { MadeCertificatesExist }
{}

/// By the same weights of a link a best block for a margin or a box needs no more than one for all matrices, but for what `b`, a
/// whole number, is rounded, if `b` is not at its limit.
pub fn bounded_blocks_need_little_more()
    ensures { BoundedBlocksNeedLittleMore }
{}
