//! How many bytes the file of a certificate may have.
use te_model::file_limit;
use te_ports::Limit;

/// By the first line of the file.
#[derive(Clone, Copy)]
pub(crate) struct FileLimit;

impl Limit for FileLimit {
    ghost use Rattle.te_model.specs.FileLimit.{file_limit};

    ghost allowed = { λ _. file_limit };

    fn allowed(&self, bytes: &[u8]) -> u64 {
        file_limit(bytes)
    }
}
