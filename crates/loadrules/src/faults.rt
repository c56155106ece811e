// Refusals as a person reads them: number and name, and where they have one, layer and place.
use crate::names::Named;
use format::fault::TableFault;
use jinja::answer::Refusal;
use std::fmt;
use verifier::fault::{LeastTableFault, VerifierFault};
use verifier::load_fault::LoadFault;
use writer::WriteFault;

/// What is refused, and why. Written in full, with its name.
#[derive(Clone, Copy)]
pub enum Refused {
    /// A file that is no accepted set.
    File(LoadFault),
    /// A method whose least table is asked for.
    Table(LeastTableFault),
    /// An output that a set is to be written into.
    Output(WriteFault),
    /// A call of a machine.
    Call(Refusal),
}

/// A refusal without its name.
#[derive(Clone, Copy)]
pub struct Brief(pub Refused);

impl From<TableFault> for Refused {
    fn from(fault: TableFault) -> Refused {
        Refused::File(fault.into())
    }
}

impl From<VerifierFault> for Refused {
    fn from(fault: VerifierFault) -> Refused {
        Refused::File(fault.into())
    }
}

impl Refused {
    fn number(self) -> u8 {
        match self {
            Refused::File(fault) => fault.number(),
            Refused::Table(fault) => fault.number(),
            Refused::Output(fault) => fault.number(),
            Refused::Call(refusal) => refusal.number(),
        }
    }

    fn name(self) -> &'static str {
        match self {
            Refused::File(fault) => fault.name(),
            Refused::Table(fault) => fault.name(),
            Refused::Output(fault) => fault.name(),
            Refused::Call(refusal) => refusal.name(),
        }
    }
}

impl fmt::Display for Refused {
    fn fmt<W: fmt::Write>(&self, f: &mut fmt::Formatter<W>) -> fmt::Result {
        write!(f, "refused {} {}", self.number(), self.name())?;
        match self {
            Refused::File(fault) => write!(f, " ({}) at {}", fault.layer().name(), fault.place()),
            _ => Ok(()),
        }
    }
}

impl fmt::Display for Brief {
    fn fmt<W: fmt::Write>(&self, f: &mut fmt::Formatter<W>) -> fmt::Result {
        write!(f, "refused {}", self.0.number())?;
        match self.0 {
            Refused::File(fault) => write!(f, " at {}", fault.place()),
            _ => Ok(()),
        }
    }
}
