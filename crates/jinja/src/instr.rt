// The instructions of a method's code, with their operands.
ghost use Rattle.std.specs.Prelude.{◌≡◌};
ghost use Rattle.jinja.specs.Rule.{literal_type};

use crate::program::{ClassNumber, Name};
use crate::ty::Ty;

/// What Push puts on the operand stack. Never an address: no file can name an object.
#[derive(Clone, Copy, PartialEq, Eq, Debug)]
pub enum Literal {
    Unit,
    Null,
    Boolean(bool),
    Integer(i32),
}

// The type of what Push puts on the stack.
impl From<Literal> for Ty {
    ghost from_gives = { λ v t. t ≡ literal_type v };

    fn from(literal: Literal) -> Ty {
        match literal {
            Literal::Unit => Ty::Void,
            Literal::Null => Ty::NullType,
            Literal::Boolean(_) => Ty::Boolean,
            Literal::Integer(_) => Ty::Integer,
        }
    }
}

/// An instruction. Registers and argument counts are 0 to 255; jump offsets are relative to the instruction itself.
#[derive(Clone, Copy, PartialEq, Eq, Debug)]
pub enum Instr {
    Load(u8),
    Store(u8),
    Push(Literal),
    Pop,
    New(ClassNumber),
    /// The field's name, and the class that declares it.
    Getfield(Name, ClassNumber),
    Putfield(Name, ClassNumber),
    Checkcast(ClassNumber),
    /// The method's name, and the number of arguments.
    Invoke(Name, u8),
    Return,
    IAdd,
    CmpEq,
    IfFalse(i16),
    Goto(i16),
    Throw,
}
