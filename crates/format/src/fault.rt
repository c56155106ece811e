// What is wrong with a file: the faults of a table, over those of its numbers.
ghost use Rattle.std.specs.Prelude.{◌≡◌};
ghost use Rattle.format.specs.declared.fault.TableFault.TheVariants.{Number as of_number};
ghost use Rattle.format.specs.Faults.{table_fault_number, table_fault_place};

use number::fault::NumberFault;

/// Why a file is refused, each with the place where its last number began.
#[derive(Clone, Copy, PartialEq, Eq, Debug)]
pub enum TableFault {
    /// 1 to 3: the number itself is cut, padded or oversize.
    Number(NumberFault),
    /// 4: a limit is broken.
    Outside(usize),
    /// 5: no such instruction, literal kind or Boolean.
    Unknown(usize),
    /// 6: a superclass that is not smaller, or a type of no class.
    Classless(usize),
    /// 7: a field or method name again in its class.
    Twice(usize),
    /// 8: other types than the inherited method has.
    Override(usize),
    /// 9: bytes behind the file; the place is that of the first.
    LeftOver(usize),
}

impl TableFault {
    // No `From`: a refusal is not turned into its number, it has one.
    /// The refusal's number, 1 to 9.
    pub fn number(self) -> u8
        ensures { result ≡ table_fault_number self }
    {
        match self {
            TableFault::Number(e) => e.number(),
            TableFault::Outside(_) => 4,
            TableFault::Unknown(_) => 5,
            TableFault::Classless(_) => 6,
            TableFault::Twice(_) => 7,
            TableFault::Override(_) => 8,
            TableFault::LeftOver(_) => 9,
        }
    }

    /// Where the number began that is refused.
    pub fn place(self) -> usize
        ensures { result ≡ table_fault_place self }
    {
        match self {
            TableFault::Number(e) => e.place(),
            TableFault::Outside(p)
            | TableFault::Unknown(p)
            | TableFault::Classless(p)
            | TableFault::Twice(p)
            | TableFault::Override(p)
            | TableFault::LeftOver(p) => p,
        }
    }
}

impl From<NumberFault> for TableFault {
    ghost from_gives = { λ e r. r ≡ of_number e };

    fn from(fault: NumberFault) -> TableFault {
        TableFault::Number(fault)
    }
}
