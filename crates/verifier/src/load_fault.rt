// Why a file is not loaded: the faults of reading and of verifying, each whole.
ghost use Rattle.std.specs.Prelude.{◌≡◌};
ghost use Rattle.verifier.specs.declared.load_fault.LoadFault.TheVariants.{Table as of_table, Verifier as of_verifier};
ghost use Rattle.verifier.specs.LoadFaults.{table_layer, fault_layer, load_fault_number, load_fault_place};

use crate::fault::VerifierFault;
use format::fault::TableFault;

/// Why a file is not loaded.
#[derive(Clone, Copy, PartialEq, Eq, Debug)]
pub enum LoadFault {
    /// 1 to 9: the file is no set.
    Table(TableFault),
    /// 10 and 11: the set is not accepted.
    Verifier(VerifierFault),
}

/// The layer that a fault comes from.
#[derive(Clone, Copy, PartialEq, Eq, Debug)]
pub enum Layer {
    /// 1 to 3: a number of the file.
    Numbers,
    /// 4 to 9: the tables of the file.
    Table,
    /// 10 and 11: the verifier.
    Verifier,
}

impl LoadFault {
    /// The layer that refuses.
    pub fn layer(self) -> Layer
        ensures { result ≡ fault_layer self }
    {
        match self {
            LoadFault::Table(e) => table_layer(e),
            LoadFault::Verifier(_) => Layer::Verifier,
        }
    }

    /// The refusal's number, 1 to 11.
    // Kept, no plainer by `From`: it is the number that users know the refusal by; `number` and `place` differ in type.
    pub fn number(self) -> u8
        ensures { result ≡ load_fault_number self }
    {
        match self {
            LoadFault::Table(e) => e.number(),
            LoadFault::Verifier(e) => e.number(),
        }
    }

    /// Where the number began that is refused, or the method that is refused.
    pub fn place(self) -> usize
        ensures { result ≡ load_fault_place self }
    {
        match self {
            LoadFault::Table(e) => e.place(),
            LoadFault::Verifier(e) => e.place(),
        }
    }
}

// Reading has two layers.
fn table_layer(fault: TableFault) -> Layer
    ensures { result ≡ table_layer fault }
{
    match fault {
        TableFault::Number(_) => Layer::Numbers,
        _ => Layer::Table,
    }
}

impl From<TableFault> for LoadFault {
    ghost from_gives = { λ e r. r ≡ of_table e };

    fn from(fault: TableFault) -> LoadFault {
        LoadFault::Table(fault)
    }
}

impl From<VerifierFault> for LoadFault {
    ghost from_gives = { λ e r. r ≡ of_verifier e };

    fn from(fault: VerifierFault) -> LoadFault {
        LoadFault::Verifier(fault)
    }
}
