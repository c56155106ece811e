// The records of a set's tables. Lists of a class or a method are spans of flat tables.
ghost use Rattle.std.specs.Prelude.{◌≡◌, ◌≤◌, length};
ghost use Rattle.tables.specs.Spans.{part, Within};

use jinja::program::{ClassNumber, Name};
use jinja::ty::Ty;

/// `count` items of a flat table, from `first` on.
#[derive(Clone, Copy)]
pub struct Span {
    pub first: usize,
    pub count: usize,
}

impl Span {
    /// Those of the items that lie in the span.
    #[inline(always)]
    pub fn of<T>(self, items: &[T]) -> &[T]
        ensures items { result.now ≡ part self items.now }
        ensures few { length result.now ≤ length items.now }
    {
        let first = self.first.min(items.len());
        let end = first + self.count.min(items.len() - first);
        &items[first..end]
    }

    // The items of the span, which lies in them: nothing is held to their number.
    #[inline(always)]
    pub(crate) fn all_of<T>(self, items: &[T]) -> &[T]
        requires { Within (length items.now) self }
        ensures { result.now ≡ part self items.now }
    {
        &items[self.first..self.first + self.count]
    }
}

/// A class: its superclass, and the spans of the fields and methods that it declares.
#[derive(Clone, Copy)]
pub struct ClassRec {
    pub superclass: ClassNumber,
    pub fields: Span,
    pub methods: Span,
}

/// A method, with the spans of its parameter types, instructions and handlers.
#[derive(Clone, Copy)]
pub struct MethodRec {
    pub name: Name,
    pub params: Span,
    pub result: Ty,
    /// The greatest height of the operand stack.
    pub height: u8,
    /// Registers besides this object and the parameters.
    pub extras: u8,
    pub code: Span,
    pub handlers: Span,
}
