// Classes, types and instructions as a person reads them: wrappers, since the types are those of other crates.
use jinja::instr::{Instr, Literal};
use jinja::program::{CLASS_CAST, ClassNumber, NULL_POINTER, OBJECT, OUT_OF_MEMORY};
use jinja::ty::Ty;
use std::fmt;

/// A class by its number, and by its name where it is built in.
#[derive(Clone, Copy)]
pub struct ClassWord(pub ClassNumber);

impl fmt::Display for ClassWord {
    fn fmt<W: fmt::Write>(&self, f: &mut fmt::Formatter<W>) -> fmt::Result {
        match self.0 {
            OBJECT => write!(f, "Object"),
            NULL_POINTER => write!(f, "NullPointer"),
            CLASS_CAST => write!(f, "ClassCast"),
            OUT_OF_MEMORY => write!(f, "OutOfMemory"),
            c => write!(f, "class {c}"),
        }
    }
}

#[derive(Clone, Copy)]
pub struct TypeWord(pub Ty);

impl fmt::Display for TypeWord {
    fn fmt<W: fmt::Write>(&self, f: &mut fmt::Formatter<W>) -> fmt::Result {
        match self.0 {
            Ty::Void => write!(f, "Void"),
            Ty::Boolean => write!(f, "Boolean"),
            Ty::Integer => write!(f, "Integer"),
            Ty::NullType => write!(f, "Null"),
            Ty::Class(c) => write!(f, "{}", ClassWord(c)),
        }
    }
}

#[derive(Clone, Copy)]
pub struct LiteralWord(pub Literal);

impl fmt::Display for LiteralWord {
    fn fmt<W: fmt::Write>(&self, f: &mut fmt::Formatter<W>) -> fmt::Result {
        match self.0 {
            Literal::Unit => write!(f, "Unit"),
            Literal::Null => write!(f, "Null"),
            Literal::Boolean(b) => write!(f, "{b}"),
            Literal::Integer(z) => write!(f, "{z}"),
        }
    }
}

/// Where a jump leads from the instruction at `from`.
#[derive(Clone, Copy)]
pub struct JumpWord {
    pub from: usize,
    pub offset: i16,
}

impl fmt::Display for JumpWord {
    fn fmt<W: fmt::Write>(&self, f: &mut fmt::Formatter<W>) -> fmt::Result {
        let offset = i64::from(self.offset);
        match i64::try_from(self.from) {
            Ok(from) => {
                let to = from.saturating_add(offset);
                write!(f, "to {to}")
            }
            Err(_) => write!(f, "by {offset}"),
        }
    }
}

/// An instruction and its place in the method.
#[derive(Clone, Copy)]
pub struct InstrWord {
    pub at: usize,
    pub instr: Instr,
}

impl fmt::Display for InstrWord {
    fn fmt<W: fmt::Write>(&self, f: &mut fmt::Formatter<W>) -> fmt::Result {
        let from = self.at;
        match self.instr {
            Instr::Load(n) => write!(f, "Load register {n}"),
            Instr::Store(n) => write!(f, "Store register {n}"),
            Instr::Push(v) => write!(f, "Push {}", LiteralWord(v)),
            Instr::Pop => write!(f, "Pop"),
            Instr::New(c) => write!(f, "New {}", ClassWord(c)),
            Instr::Getfield(name, c) => write!(f, "Getfield {name} of {}", ClassWord(c)),
            Instr::Putfield(name, c) => write!(f, "Putfield {name} of {}", ClassWord(c)),
            Instr::Checkcast(c) => write!(f, "Checkcast {}", ClassWord(c)),
            Instr::Invoke(name, 1) => write!(f, "Invoke {name} with 1 argument"),
            Instr::Invoke(name, n) => write!(f, "Invoke {name} with {n} arguments"),
            Instr::Return => write!(f, "Return"),
            Instr::IAdd => write!(f, "IAdd"),
            Instr::CmpEq => write!(f, "CmpEq"),
            Instr::IfFalse(offset) => write!(f, "IfFalse {}", JumpWord { from, offset }),
            Instr::Goto(offset) => write!(f, "Goto {}", JumpWord { from, offset }),
            Instr::Throw => write!(f, "Throw"),
        }
    }
}
