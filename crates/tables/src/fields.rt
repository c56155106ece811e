// Fields: the row of an object's values, and the field of a name.
ghost use Rattle.std.specs.Prelude.{◌≡◌, ◌+◌, ◌<◌, ◌≤◌, length, IfSome, Some, None};
ghost use Rattle.std.specs.List.{slice_get};
ghost use Rattle.jinja.specs.Classes.{maybe, superclass_of};
ghost use Rattle.jinja.specs.Lookups.{own_fields, own_field, fields_within, fields_of};
ghost use Rattle.tables.specs.Records.{longest_row};
ghost use Rattle.tables.specs.Views.{program_of};
ghost use Rattle.format.specs.Limits.{all_fields};

use crate::names::position_of;
use crate::tables::Tables;
use jinja::program::{ClassNumber, Field, FieldPlace, Name, OBJECT};
use jinja::ty::Ty;

impl Tables {
    /// How many values an object of class `c` has: its own fields and those of its superclasses.
    #[inline(always)]
    pub fn row_len(&self, c: ClassNumber) -> usize
        ensures len { result ≡ length (fields_of (program_of self.now) c) }
        ensures few { result ≤ longest_row }
    {
        self.row_within(c, c)
    }

    /// Where the field of that name that `c` itself declares stands in an object's row, and its type.
    #[inline(always)]
    pub fn own_field(&self, c: ClassNumber, name: Name) -> Option<FieldPlace>
        ensures { result ≡ own_field (program_of self.now) c name }
    {
        let (i, ty) = self.declared(c, name)?;
        let above = self.row_len(self.superclass(c));
        Some(FieldPlace {
            place: above + i,
            ty,
        })
    }

    /// The type of the `i`-th value of an object of class `c`.
    pub fn field_type(&self, c: ClassNumber, i: usize) -> Option<Ty>
        ensures { result ≡ maybe (slice_get (fields_of (program_of self.now) c) i) None (λ x. Some x.ty) }
    {
        self.field_at(c, i).map(|field| field.ty)
    }

    // The `i`-th field of an object of class `c`.
    fn field_at(&self, c: ClassNumber, i: usize) -> Option<Field>
        ensures { result ≡ slice_get (fields_of (program_of self.now) c) i }
    {
        let mut end = self.row_len(c);
        if i >= end {
            return None;
        }
        let mut at = c;
        for _ in 0..=c {
            let own = self.own_fields(at);
            let start = end - own.len();
            if i >= start {
                return Some(own[i - start]);
            }
            at = self.superclass(at);
            end = start;
        }
        None
    }

    // The place among its own fields, and the type, of the field of that name that `c` declares.
    #[inline(always)]
    fn declared(&self, c: ClassNumber, name: Name) -> Option<(usize, Ty)>
        ensures field { own_field (program_of self.now) c name ≡ maybe result None (λ p. Some (record { place = length (fields_of (program_of self.now) (superclass_of (program_of self.now) c)) + p.0; ty = p.1 })) }
        ensures few { IfSome result (λ p. p.0 < all_fields) }
    {
        let own = self.own_fields(c);
        let i = position_of(own, name)?;
        Some((i, own[i].ty))
    }

    // The length of the row as far as so many steps up from `c`.
    #[inline(always)]
    fn row_within(&self, steps: u8, c: ClassNumber) -> usize
        ensures climb { result ≡ length (fields_within (program_of self.now) steps c) }
        ensures all { steps ≡ c → result ≡ length (fields_of (program_of self.now) c) }
        ensures few { result ≤ longest_row }
    {
        let mut len = self.own_fields(c).len();
        let mut at = c;
        for _ in 0..steps {
            if at == OBJECT {
                return len;
            }
            at = self.superclass(at);
            len += self.own_fields(at).len();
        }
        len
    }

    /// The fields that `c` itself declares.
    #[inline(always)]
    pub fn own_fields(&self, c: ClassNumber) -> &[Field]
        ensures fields { result.now ≡ own_fields (program_of self.now) c }
        ensures few { length result.now ≤ all_fields }
    {
        match self.class(c) {
            Some(class) => class.fields.all_of(self.fields.as_slice()),
            None => &[],
        }
    }
}
