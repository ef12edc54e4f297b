//! Why a call is refused, and what it tells then.
use search::Refused;
use strips::Denial;
use taskfile::Fault;

/// The number of a refusal.
pub(crate) fn number(denial: Denial) -> u32 {
    u32::from(u8::from(denial))
}

/// Tells numbers at the front of a lent slice, where they fit. What is told is made of sizes by `as`, since no `From` leads from
/// a `usize` to a `u64`.
fn tell<const N: usize>(told: &mut [u64], numbers: [u64; N]) {
    if let Some(front) = told.first_chunk_mut() {
        *front = numbers;
    }
}

/// Why a call is refused.
#[derive(Clone, Copy)]
pub(crate) enum Failure {
    /// The file has a fault.
    Fault(Fault),
    /// The search was refused.
    Search(Refused),
    /// All else.
    Denied(Denial),
}

impl From<Fault> for Failure {
    fn from(fault: Fault) -> Failure {
        Failure::Fault(fault)
    }
}

impl From<Refused> for Failure {
    fn from(refused: Refused) -> Failure {
        Failure::Search(refused)
    }
}

impl From<Denial> for Failure {
    fn from(denial: Denial) -> Failure {
        Failure::Denied(denial)
    }
}

impl Failure {
    /// The number of the refusal.
    pub(crate) fn number(self) -> u32 {
        number(match self {
            Failure::Fault(fault) => fault.denial,
            Failure::Search(refused) => refused.denial,
            Failure::Denied(denial) => denial,
        })
    }

    /// Tells where the fault of a file is, or how many places a search used.
    pub(crate) fn tell(self, told: &mut [u64]) {
        match self {
            Failure::Fault(fault) => {
                let action = fault
                    .action
                    .map_or(0, |action| (action as u64).saturating_add(1));
                tell(told, [fault.place as u64, action]);
            }
            Failure::Search(refused) => {
                if let Some(used) = refused.used {
                    tell(told, [0, 0, 0, used as u64]);
                }
            }
            Failure::Denied(_) => {}
        }
    }
}
