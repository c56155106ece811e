// The items that have no lists of their own: types, instructions, fields and handlers.
ghost use Rattle.std.specs.Prelude.{◌≡◌, ◌++◌};
ghost use Rattle.number.specs.Numbers.{bytes};
ghost use Rattle.number.specs.Puts.{Puts, pen_of};
ghost use Rattle.jinja.specs.Types.{type_number};
ghost use Rattle.format.specs.Encode.{type_bytes, literal_bytes, instr_bytes, field_bytes, handler_bytes};

use crate::lists::Item;
use crate::numbers::put_numbers;
use jinja::instr::{Instr, Literal};
use jinja::program::{Field, Handler};
use jinja::ty::Ty;
use number::pen::{Pen, Short};
use number::signed::from_signed;
use tables::tables::Tables;

// The number by which a file names the type.
fn number_of(t: Ty) -> u32
    ensures { result ≡ type_number t }
{
    u32::from(u16::from(t))
}

pub(crate) fn put_type(pen: &mut Pen, t: Ty) -> Result<(), Short>
    ensures { Puts result (pen_of pen.old) (pen_of pen.new) (type_bytes t) }
{
    pen.put_number(number_of(t))
}

fn put_literal(pen: &mut Pen, v: Literal) -> Result<(), Short>
    ensures { Puts result (pen_of pen.old) (pen_of pen.new) (literal_bytes v) }
{
    match v {
        Literal::Unit => pen.put_number(0),
        Literal::Null => pen.put_number(1),
        Literal::Boolean(false) => put_numbers(pen, &[2, 0]),
        Literal::Boolean(true) => put_numbers(pen, &[2, 1]),
        Literal::Integer(z) => put_numbers(pen, &[3, from_signed(z)]),
    }
}

fn put_push(pen: &mut Pen, v: Literal) -> Result<(), Short>
    ensures { Puts result (pen_of pen.old) (pen_of pen.new) (bytes 2 ++ literal_bytes v) }
{
    pen.put_number(2)?;
    put_literal(pen, v)
}

fn put_instr(pen: &mut Pen, x: Instr) -> Result<(), Short>
    ensures { Puts result (pen_of pen.old) (pen_of pen.new) (instr_bytes x) }
{
    match x {
        Instr::Load(n) => put_numbers(pen, &[0, u32::from(n)]),
        Instr::Store(n) => put_numbers(pen, &[1, u32::from(n)]),
        Instr::Push(v) => put_push(pen, v),
        Instr::Pop => pen.put_number(3),
        Instr::New(c) => put_numbers(pen, &[4, u32::from(c)]),
        Instr::Getfield(f, c) => put_numbers(pen, &[5, u32::from(f), u32::from(c)]),
        Instr::Putfield(f, c) => put_numbers(pen, &[6, u32::from(f), u32::from(c)]),
        Instr::Checkcast(c) => put_numbers(pen, &[7, u32::from(c)]),
        Instr::Invoke(m, n) => put_numbers(pen, &[8, u32::from(m), u32::from(n)]),
        Instr::Return => pen.put_number(9),
        Instr::IAdd => pen.put_number(10),
        Instr::CmpEq => pen.put_number(11),
        Instr::IfFalse(z) => put_numbers(pen, &[12, from_signed(i32::from(z))]),
        Instr::Goto(z) => put_numbers(pen, &[13, from_signed(i32::from(z))]),
        Instr::Throw => pen.put_number(14),
    }
}

fn put_field(pen: &mut Pen, f: Field) -> Result<(), Short>
    ensures { Puts result (pen_of pen.old) (pen_of pen.new) (field_bytes f) }
{
    put_numbers(pen, &[u32::from(f.name), number_of(f.ty)])
}

fn put_handler(pen: &mut Pen, h: Handler) -> Result<(), Short>
    ensures { Puts result (pen_of pen.old) (pen_of pen.new) (handler_bytes h) }
{
    put_numbers(
        pen,
        &[
            u32::from(h.first),
            u32::from(h.end),
            u32::from(h.class),
            u32::from(h.target),
            u32::from(h.depth),
        ],
    )
}

impl Item for Ty {
    ghost stands = { λ _ x. type_bytes x };

    fn put(self, _tables: &Tables, pen: &mut Pen) -> Result<(), Short> {
        put_type(pen, self)
    }
}

impl Item for Instr {
    ghost stands = { λ _ x. instr_bytes x };

    fn put(self, _tables: &Tables, pen: &mut Pen) -> Result<(), Short> {
        put_instr(pen, self)
    }
}

impl Item for Field {
    ghost stands = { λ _ x. field_bytes x };

    fn put(self, _tables: &Tables, pen: &mut Pen) -> Result<(), Short> {
        put_field(pen, self)
    }
}

impl Item for Handler {
    ghost stands = { λ _ x. handler_bytes x };

    fn put(self, _tables: &Tables, pen: &mut Pen) -> Result<(), Short> {
        put_handler(pen, self)
    }
}
