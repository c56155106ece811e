// Why a set is not written.
ghost use Rattle.std.specs.Prelude.{◌≡◌};
ghost use Rattle.writer.specs.declared.fault.WriteFault.TheVariants.{Short as too_short};
ghost use Rattle.writer.specs.Faults.{write_fault_number, write_fault_place};

use number::pen::Short;

/// Why a set is not written.
#[derive(Clone, Copy, PartialEq, Eq, Debug)]
pub enum WriteFault {
    /// 10: the output is too short for the set's file.
    Short,
}

impl WriteFault {
    // No `From`: a refusal is not turned into its number, it has one.
    /// The refusal's number, 10.
    pub fn number(self) -> u8
        ensures { result ≡ write_fault_number self }
    {
        match self {
            WriteFault::Short => 10,
        }
    }

    /// The refusal's place: 0, since no byte was put.
    pub fn place(self) -> usize
        ensures { result ≡ write_fault_place self }
    {
        match self {
            WriteFault::Short => 0,
        }
    }
}

impl From<Short> for WriteFault {
    ghost from_gives = { λ _ r. r ≡ too_short };

    fn from(_e: Short) -> WriteFault {
        WriteFault::Short
    }
}
