// Why a heap refuses a call.
ghost use Rattle.std.specs.Prelude.{◌≡◌};
ghost use Rattle.heap.specs.Faults.{heap_fault_number};

/// A heap's refusal: `Full` (18) of a row of over 8 values or one that would pass a total, `NoObject` (19) where there
/// is no such object or field.
#[derive(Clone, Copy, PartialEq, Eq)]
pub enum HeapFault {
    Full,
    NoObject,
}

impl HeapFault {
    // No `From`: a refusal is not turned into its number, it has one.
    /// The number that users know the refusal by.
    pub fn number(self) -> u8
        ensures { result ≡ heap_fault_number self }
    {
        match self {
            HeapFault::Full => 18,
            HeapFault::NoObject => 19,
        }
    }
}
