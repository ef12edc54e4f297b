//! What is wrong with a file.
use strips::Denial;

/// Why a file is refused, the byte where that is told, and the action whose record it is in.
#[derive(Clone, Copy, Debug, PartialEq, Eq)]
pub struct Fault {
    pub denial: Denial,
    pub place: usize,
    pub action: Option<usize>,
}
