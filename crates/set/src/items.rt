// What stands in a file between its counts: limited numbers, types, instructions and handlers.
ghost use Rattle.std.specs.Prelude.{◌≡◌, ◌≤◌};
ghost use Rattle.number.specs.Signed.{signed};
ghost use Rattle.format.specs.Limits.{max_operand, max_handler_number, max_offset, all_classes};
ghost use Rattle.format.specs.Reading.{at_most};
ghost use Rattle.format.specs.Parse.{type_at, boolean_at, literal_at, instr_at, handler_at};
ghost use Rattle.set.specs.Taken.{Took};

use format::fault::TableFault;
use format::limits::{MAX_HANDLER_NUMBER, MAX_OFFSET, MAX_OPERAND};
use jinja::instr::{Instr, Literal};
use jinja::program::Handler;
use jinja::ty::Ty;
use number::cursor::Cursor;
use number::signed::to_signed;

// A number that is at most `most`.
pub(crate) fn at_most(c: &mut Cursor, most: u32) -> Result<u32, TableFault>
    ensures { Took result c.old c.new (λ file p. at_most file most p) }
{
    let start = c.place();
    let n = c.number()?;
    if n > most {
        return Err(TableFault::Outside(start));
    }
    Ok(n)
}

// A name, a class, a register or an argument count: a number of a byte.
pub(crate) fn read_operand(c: &mut Cursor) -> Result<u8, TableFault>
    ensures { Took result c.old c.new (λ file p. at_most file max_operand p) }
{
    let n = at_most(c, MAX_OPERAND)?;
    Ok(n as u8)
}

// The offset of a jump.
fn read_offset(c: &mut Cursor) -> Result<u32, TableFault>
    ensures { Took result c.old c.new (λ file p. at_most file max_offset p) }
{
    at_most(c, MAX_OFFSET)
}

fn offset(n: u32) -> i16
    requires { n ≤ max_offset }
    ensures { result ≡ signed n }
{
    to_signed(n) as i16
}

// A type, where there are `n` classes in all.
pub(crate) fn read_type(c: &mut Cursor, n: u32) -> Result<Ty, TableFault>
    requires { n ≤ all_classes }
    ensures { Took result c.old c.new (λ file p. type_at file n p) }
{
    let start = c.place();
    let t = c.number()?;
    if t >= 4 + n {
        return Err(TableFault::Classless(start));
    }
    Ty::try_from(t as u16).or(Err(TableFault::Classless(start)))
}

// Booleans, literals and instructions are numbers in a file: the numbers of the matches are the format itself.
fn read_boolean(c: &mut Cursor) -> Result<bool, TableFault>
    ensures { Took result c.old c.new boolean_at }
{
    let start = c.place();
    match c.number()? {
        0 => Ok(false),
        1 => Ok(true),
        _ => Err(TableFault::Unknown(start)),
    }
}

fn read_literal(c: &mut Cursor) -> Result<Literal, TableFault>
    ensures { Took result c.old c.new literal_at }
{
    let start = c.place();
    match c.number()? {
        0 => Ok(Literal::Unit),
        1 => Ok(Literal::Null),
        2 => Ok(Literal::Boolean(read_boolean(c)?)),
        3 => {
            let n = c.number()?;
            Ok(Literal::Integer(to_signed(n)))
        }
        _ => Err(TableFault::Unknown(start)),
    }
}

pub(crate) fn read_instr(c: &mut Cursor) -> Result<Instr, TableFault>
    ensures { Took result c.old c.new instr_at }
{
    let start = c.place();
    match c.number()? {
        0 => Ok(Instr::Load(read_operand(c)?)),
        1 => Ok(Instr::Store(read_operand(c)?)),
        2 => Ok(Instr::Push(read_literal(c)?)),
        3 => Ok(Instr::Pop),
        4 => Ok(Instr::New(read_operand(c)?)),
        5 => Ok(Instr::Getfield(read_operand(c)?, read_operand(c)?)),
        6 => Ok(Instr::Putfield(read_operand(c)?, read_operand(c)?)),
        7 => Ok(Instr::Checkcast(read_operand(c)?)),
        8 => Ok(Instr::Invoke(read_operand(c)?, read_operand(c)?)),
        9 => Ok(Instr::Return),
        10 => Ok(Instr::IAdd),
        11 => Ok(Instr::CmpEq),
        12 => Ok(Instr::IfFalse(offset(read_offset(c)?))),
        13 => Ok(Instr::Goto(offset(read_offset(c)?))),
        14 => Ok(Instr::Throw),
        _ => Err(TableFault::Unknown(start)),
    }
}

// A place or a depth of a handler.
fn read_handler_number(c: &mut Cursor) -> Result<u16, TableFault>
    ensures { Took result c.old c.new (λ file p. at_most file max_handler_number p) }
{
    let n = at_most(c, MAX_HANDLER_NUMBER)?;
    Ok(n as u16)
}

pub(crate) fn read_handler(c: &mut Cursor) -> Result<Handler, TableFault>
    ensures { Took result c.old c.new handler_at }
{
    let first = read_handler_number(c)?;
    let end = read_handler_number(c)?;
    let class = read_operand(c)?;
    let target = read_handler_number(c)?;
    let depth = read_handler_number(c)?;
    Ok(Handler {
        first,
        end,
        class,
        target,
        depth,
    })
}
