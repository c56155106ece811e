// Why a set is not accepted, and why a least table is not written.
ghost use Rattle.std.specs.Prelude.{◌≡◌};
ghost use Rattle.verifier.specs.Faults.{verifier_fault_number, verifier_fault_place, least_table_fault_number};

/// Why verifying refuses.
#[derive(Clone, Copy, PartialEq, Eq, Debug)]
pub enum VerifierFault {
    /// 10: the workspace is too short.
    Short,
    /// 11: a method has no well-typing; the place is the number of the first such method.
    Untypable(usize),
}

impl VerifierFault {
    /// The refusal's number, 10 or 11.
    // Kept, no plainer by `From`: it is the number that users know the refusal by, and no other form of the case.
    pub fn number(self) -> u8
        ensures { result ≡ verifier_fault_number self }
    {
        match self {
            VerifierFault::Short => 10,
            VerifierFault::Untypable(_) => 11,
        }
    }

    /// The method that is refused, and 0 where the workspace is too short.
    pub fn place(self) -> usize
        ensures { result ≡ verifier_fault_place self }
    {
        match self {
            VerifierFault::Short => 0,
            VerifierFault::Untypable(method) => method,
        }
    }
}

/// Why a least table is not written.
#[derive(Clone, Copy, PartialEq, Eq, Debug)]
pub enum LeastTableFault {
    /// 10: the workspace is too short.
    Short,
    /// 13: there is no such class, or it sees no method of that name.
    Unseen,
}

impl LeastTableFault {
    /// The refusal's number, 10 or 13.
    // Kept, no plainer by `From`: it is the number that users know the refusal by, and no other form of the case.
    pub fn number(self) -> u8
        ensures { result ≡ least_table_fault_number self }
    {
        match self {
            LeastTableFault::Short => 10,
            LeastTableFault::Unseen => 13,
        }
    }
}
