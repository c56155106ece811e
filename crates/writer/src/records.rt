// Methods and classes, whose lists are spans of the tables.
ghost use Rattle.number.specs.Puts.{Puts, pen_of};
ghost use Rattle.format.specs.Encode.{counted_bytes, method_bytes, class_bytes, encode};
ghost use Rattle.tables.specs.Spans.{part};
ghost use Rattle.tables.specs.Views.{classes_of, method_views, program_of};
ghost use Rattle.writer.specs.Records.{method_of, class_of, body_bytes};

use crate::items::put_type;
use crate::lists::{Item, put_items, put_span};
use crate::numbers::put_u8;
use number::pen::{Pen, Short};
use tables::records::{ClassRec, MethodRec, Span};
use tables::tables::Tables;

// Puts the program that the tables stand for.
pub(crate) fn put_program(pen: &mut Pen, tables: &Tables) -> Result<(), Short>
    ensures { Puts result (pen_of pen.old) (pen_of pen.new) (encode (program_of tables.now)) }
{
    put_classes(pen, tables)
}

fn put_classes(pen: &mut Pen, tables: &Tables) -> Result<(), Short>
    ensures { Puts result (pen_of pen.old) (pen_of pen.new) (counted_bytes (λ c. class_bytes (class_of tables.now c)) (classes_of tables.now)) }
{
    put_items(pen, tables, tables.classes.as_slice())
}

fn put_class(pen: &mut Pen, tables: &Tables, c: ClassRec) -> Result<(), Short>
    ensures { Puts result (pen_of pen.old) (pen_of pen.new) (class_bytes (class_of tables.now c)) }
{
    put_u8(pen, c.superclass)?;
    put_span(pen, tables, &tables.fields, c.fields)?;
    put_methods(pen, tables, c.methods)
}

fn put_methods(pen: &mut Pen, tables: &Tables, span: Span) -> Result<(), Short>
    ensures { Puts result (pen_of pen.old) (pen_of pen.new) (counted_bytes method_bytes (part span (method_views tables.now))) }
{
    put_span(pen, tables, &tables.methods, span)
}

fn put_method(pen: &mut Pen, tables: &Tables, m: MethodRec) -> Result<(), Short>
    ensures { Puts result (pen_of pen.old) (pen_of pen.new) (method_bytes (method_of tables.now m)) }
{
    put_u8(pen, m.name)?;
    put_span(pen, tables, &tables.params, m.params)?;
    put_type(pen, m.result)?;
    put_body(pen, tables, m)
}

fn put_body(pen: &mut Pen, tables: &Tables, m: MethodRec) -> Result<(), Short>
    ensures { Puts result (pen_of pen.old) (pen_of pen.new) (body_bytes (method_of tables.now m)) }
{
    put_u8(pen, m.height)?;
    put_u8(pen, m.extras)?;
    put_span(pen, tables, &tables.instrs, m.code)?;
    put_span(pen, tables, &tables.handlers, m.handlers)
}

impl Item for MethodRec {
    ghost stands = { λ t m. method_bytes (method_of t m) };

    fn put(self, tables: &Tables, pen: &mut Pen) -> Result<(), Short> {
        put_method(pen, tables, self)
    }
}

impl Item for ClassRec {
    ghost stands = { λ t c. class_bytes (class_of t c) };

    fn put(self, tables: &Tables, pen: &mut Pen) -> Result<(), Short> {
        put_class(pen, tables, self)
    }
}
