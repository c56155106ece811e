// The types of fields, parameters, results, registers and operand-stack cells.
ghost use Rattle.std.specs.Prelude.{◌≡◌};
ghost use Rattle.jinja.specs.Types.{type_number, Numbered};
ghost use Rattle.jinja.specs.Join.{is_reference};

use crate::program::ClassNumber;

/// The number of the first class among the types: 0 to 3 are the types that are no class.
const FIRST_CLASS: u16 = 4;

/// The type of a value.
#[derive(Clone, Copy, PartialEq, Eq, Debug)]
pub enum Ty {
    /// The type of Unit.
    Void,
    Boolean,
    /// Signed numbers of 32 bits.
    Integer,
    /// The type of Null: a reference that lies below every class.
    NullType,
    /// References to objects of this class or a class below it, and Null.
    Class(ClassNumber),
}

/// A number that is no type's: it is above 259.
#[derive(Clone, Copy, PartialEq, Eq, Debug)]
pub struct NoType(pub u16);

impl Ty {
    /// Whether the values of the type are references.
    pub fn is_reference(self) -> bool
        ensures { result ≡ is_reference self }
    {
        matches!(self, Ty::NullType | Ty::Class(_))
    }
}

// Each type has a number, by which files and rows name it.
impl From<Ty> for u16 {
    ghost from_gives = { λ t n. n ≡ type_number t };

    fn from(t: Ty) -> u16 {
        match t {
            Ty::Void => 0,
            Ty::Boolean => 1,
            Ty::Integer => 2,
            Ty::NullType => 3,
            Ty::Class(c) => FIRST_CLASS + u16::from(c),
        }
    }
}

impl TryFrom<u16> for Ty {
    type Error = NoType;

    ghost try_from_gives = { Numbered };

    fn try_from(n: u16) -> Result<Ty, NoType> {
        match n {
            0 => Ok(Ty::Void),
            1 => Ok(Ty::Boolean),
            2 => Ok(Ty::Integer),
            3 => Ok(Ty::NullType),
            4..=259 => Ok(Ty::Class((n - FIRST_CLASS) as ClassNumber)),
            _ => Err(NoType(n)),
        }
    }
}
