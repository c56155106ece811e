// The parts of a program that hold no lists; specs/Program.antt has the whole of it.
use crate::ty::Ty;

/// The name of a field or a method.
pub type Name = u8;

/// A class: 0 to 3 are Object, NullPointer, ClassCast and OutOfMemory, and a program's own count from 4.
pub type ClassNumber = u8;

/// The top of all classes, that lies under itself.
pub const OBJECT: ClassNumber = 0;
/// The class of what is thrown where a reference is Null.
pub const NULL_POINTER: ClassNumber = 1;
/// The class of what a cast throws.
pub const CLASS_CAST: ClassNumber = 2;
/// The class of what is thrown where a heap takes no object.
pub const OUT_OF_MEMORY: ClassNumber = 3;
/// How many classes are built in.
pub const BUILT_IN: usize = 4;

/// A field that a class declares.
#[derive(Clone, Copy, PartialEq, Eq, Debug)]
pub struct Field {
    pub name: Name,
    pub ty: Ty,
}

/// An entry of a method's exception table: it covers the instructions from `first` to before `end`, catches objects
/// at or below `class`, and goes on at `target` with the lowest `depth` cells of the operand stack and the object.
#[derive(Clone, Copy, PartialEq, Eq, Debug)]
pub struct Handler {
    pub first: u16,
    pub end: u16,
    pub class: ClassNumber,
    pub target: u16,
    pub depth: u16,
}

/// Where a field stands in an object's row of values, and its type.
#[derive(Clone, Copy, PartialEq, Eq, Debug)]
pub struct FieldPlace {
    pub place: usize,
    pub ty: Ty,
}
