use crate::list::List;
use crate::text::Text;

/// A file in memory.
#[derive(Debug, Drop)]
pub struct MemFile {
    pub name: Text,
    pub bytes: List<u8>,
}
