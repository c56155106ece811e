// What a cell of the machine and a field of an object hold.

/// A run value: the one of type Void, Null, a Boolean, an Integer, or the address of an object.
#[derive(Clone, Copy, PartialEq, Eq)]
pub enum Value {
    Unit,
    Null,
    Bool(bool),
    Int(i32),
    Addr(u16),
}
