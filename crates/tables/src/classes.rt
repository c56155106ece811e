// Classes by their numbers: which there are, what they extend, and which lie below which.
ghost use Rattle.std.specs.Prelude.{◌≡◌, ◌&&◌, length, IfSome};
ghost use Rattle.jinja.specs.Classes.{maybe, table, is_class, superclass_of, climbs, at_or_below};
ghost use Rattle.tables.specs.Views.{fields_of, methods_of, program_of};
ghost use Rattle.tables.specs.Records.{record_at};
ghost use Rattle.tables.specs.Spans.{FieldsWithin, MethodsWithin};

use crate::records::ClassRec;
use crate::tables::Tables;
use jinja::program::{BUILT_IN, ClassNumber, OBJECT};

impl Tables {
    /// Whether the number is that of a class, built in or own.
    #[inline(always)]
    pub fn is_class(&self, c: ClassNumber) -> bool
        ensures { result ≡ is_class (program_of self.now) c }
    {
        (c as usize) < self.count_all()
    }

    /// The class that `c` extends; Object for itself, the other built-in classes and what is no class.
    #[inline(always)]
    pub fn superclass(&self, c: ClassNumber) -> ClassNumber
        ensures { result ≡ superclass_of (program_of self.now) c }
    {
        match self.class(c) {
            Some(class) => class.superclass,
            None => OBJECT,
        }
    }

    /// Whether `c` is `d` or lies below it; what is no class lies below nothing.
    #[inline(always)]
    pub fn at_or_below(&self, c: ClassNumber, d: ClassNumber) -> bool
        ensures { result ≡ at_or_below (program_of self.now) c d }
    {
        self.is_class(c) && self.climbs(c, c, d)
    }

    // Whether the way up from `c` comes to `d` within so many steps.
    //
    // Four loops climb: this, `nearest` of methods, `row_within` and `field_at` of fields. Each keeps something else on the
    // way: a test, an option, a sum, an end. Over an iterator upward the library has lemmas for `any` and `sum`, none for
    // `find_map` and none for an end that falls; four loops alike are plainer than a mix.
    #[inline(always)]
    fn climbs(&self, steps: u8, c: ClassNumber, d: ClassNumber) -> bool
        ensures climb { result ≡ climbs (program_of self.now) steps c d }
        ensures all { at_or_below (program_of self.now) c d ≡ (is_class (program_of self.now) c && climbs (program_of self.now) c c d) }
    {
        let mut at = c;
        for _ in 0..steps {
            if at == d || at == OBJECT {
                return at == d;
            }
            at = self.superclass(at);
        }
        at == d
    }

    // How many classes there are, the built-in ones included.
    #[inline(always)]
    fn count_all(&self) -> usize
        ensures { result ≡ length (table (program_of self.now)) }
    {
        BUILT_IN + self.classes.len()
    }

    // The record of an own class.
    #[inline(always)]
    pub(crate) fn class(&self, c: ClassNumber) -> Option<ClassRec>
        ensures record { result ≡ record_at self.now c }
        ensures superclass { superclass_of (program_of self.now) c ≡ maybe result 0 (λ d. d.superclass) }
        ensures methods { IfSome result (MethodsWithin (length (methods_of self.now))) }
        ensures fields { IfSome result (FieldsWithin (length (fields_of self.now))) }
    {
        let c = c as usize;
        if c < BUILT_IN {
            return None;
        }
        self.classes.get(c - BUILT_IN)
    }
}
