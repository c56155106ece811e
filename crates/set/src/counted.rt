// The items that stand in a file behind a count.
ghost use Rattle.format.specs.Parse.{type_at, instr_at, handler_at, field_at};

use crate::items::{read_handler, read_instr, read_type};
use crate::names::read_name;
use crate::table::Item;
use format::fault::TableFault;
use jinja::instr::Instr;
use jinja::program::{Field, Handler};
use jinja::ty::Ty;
use number::cursor::Cursor;

impl Item for Ty {
    ghost at = { λ file n _ p. type_at file n p };

    fn read(c: &mut Cursor, n: u32, _mine: &[Ty]) -> Result<Ty, TableFault> {
        read_type(c, n)
    }
}

impl Item for Instr {
    ghost at = { λ file _ _ p. instr_at file p };

    fn read(c: &mut Cursor, _n: u32, _mine: &[Instr]) -> Result<Instr, TableFault> {
        read_instr(c)
    }
}

impl Item for Handler {
    ghost at = { λ file _ _ p. handler_at file p };

    fn read(c: &mut Cursor, _n: u32, _mine: &[Handler]) -> Result<Handler, TableFault> {
        read_handler(c)
    }
}

impl Item for Field {
    ghost at = { λ file n mine p. field_at file n mine p };

    fn read(c: &mut Cursor, n: u32, mine: &[Field]) -> Result<Field, TableFault> {
        let name = read_name(c, mine)?;
        let ty = read_type(c, n)?;
        Ok(Field { name, ty })
    }
}
