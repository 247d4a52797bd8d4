//! Laws of hose bounds. A law of the definitions is the contract of a function that does nothing.
ghost use Rattle.hose_bound.specs.Answers.{HoseTextsAreShort, MadeCertsAreYes};
ghost use Rattle.hose_bound.specs.Cover.{TightCoversExist};
ghost use Rattle.hose_bound.specs.Files.{FilesHaveForms};
ghost use Rattle.hose_bound.specs.Hose.{HoseBounds};
ghost use Rattle.hose_bound.specs.Making.{HoseCertsExist};
ghost use Rattle.hose_bound.specs.Reading.{HoseCertsHaveOneMeaning, HosesHaveOneMeaning, KeptHasSameFault};

/// Where both inequalities hold of every link, no matrix within the hose uses a link above the bound.
pub fn matrices_within_hose_stay_within_bound()
    ensures { HoseBounds }
{}

/// There are numbers that cover the shares on a link, none of which can be lowered, and which come to no more than either
/// of the two simple covers.
pub fn tight_covers_exist()
    ensures { TightCoversExist }
{}

/// The small files whose lines are due for so many nodes are those of hoses, and of hose certificates; each that was begun
/// can be ended.
pub fn files_have_forms()
    ensures { FilesHaveForms }
{}

/// Bytes have one meaning as a hose of a network.
pub fn hoses_have_one_meaning()
    ensures { HosesHaveOneMeaning }
{}

/// Bytes have one meaning as a hose certificate of a network.
pub fn hose_certs_have_one_meaning()
    ensures { HoseCertsHaveOneMeaning }
{}

/// Keeping no more than 32 bits of the links of blocks changes no rule's answer.
pub fn kept_links_have_same_fault()
    ensures { KeptHasSameFault }
{}

/// There is a hose certificate with all that [`make`](crate::make) promises, for every network, routing and hose.
pub fn hose_certs_exist()
    ensures { HoseCertsExist }
{}

/// The text of a hose certificate that may be made is read as that certificate, and the verdict on it is yes.
pub fn made_certs_are_yes()
    ensures { MadeCertsAreYes }
{}

/// The text of a valid hose certificate has at most 2,153,600 bytes.
pub fn hose_texts_are_short()
    ensures { HoseTextsAreShort }
{}
