//! Laws of small files. A law of the definitions is the contract of a function that does nothing.
ghost use Rattle.number_tables.specs.Due.{FirstUndueLeaves, OneSmallFault, SmallFileOrFault};
ghost use Rattle.number_tables.specs.Rules.{SearchFindsFirstRule};

/// A table is a small file exactly where each of its lines is due; where one is not, the first such line is the one at
/// which the bytes leave all files of this kind. Each file that was begun can be ended.
pub fn first_undue_line_leaves()
    ensures { FirstUndueLeaves }
{}

/// Bytes leave the small files of a kind at one line at most, and a file of the kind at none. Where the bytes are no table
/// it is the line at which they leave the tables, wherever a line that is not due stands.
pub fn small_files_have_one_fault()
    ensures { OneSmallFault }
{}

/// Bytes are a small file of a kind, or leave these files at a line.
pub fn small_file_or_fault()
    ensures { SmallFileOrFault }
{}

/// The search of rules finds the failing one of the least number, at its least place, and none exactly where all hold. The
/// search of the rules of a certificate is one of these.
pub fn search_finds_first_rule()
    ensures { SearchFindsFirstRule }
{}
