// The lists of a class and a method: each stands behind its count, and becomes a span of a table.
ghost use Rattle.std.specs.Prelude.{◌≡◌, ◌+◌, ◌≤◌, [], length, IfOk};
ghost use Rattle.format.specs.Limits.{max_params, max_fields, all_classes, all_fields, all_params, max_instrs};
ghost use Rattle.format.specs.Reading.{then, counted};
ghost use Rattle.format.specs.Parse.{params_at, code_at, handlers_at, field_at};
ghost use Rattle.tables.specs.Views.{fields_of, params_of, instrs_of, handlers_of};
ghost use Rattle.set.specs.Counts.{more_at, code_count_at};
ghost use Rattle.set.specs.Grown.{Grew, lists_of};
ghost use Rattle.set.specs.Taken.{Took, Went};

use crate::items::at_most;
use crate::table::grow;
use format::fault::TableFault;
use format::limits::{MAX_CODE, MAX_FIELDS, MAX_HANDLERS, MAX_INSTRS, MAX_PARAMS};
use number::cursor::Cursor;
use tables::records::Span;
use tables::tables::Tables;

// A number that is at most `most` together with `used`.
pub(crate) fn read_more(c: &mut Cursor, used: usize, most: usize) -> Result<usize, TableFault>
    requires { used ≤ 65536 }
    ensures took { Took result c.old c.new (λ file p. more_at file used most p) }
    ensures most { IfOk result (λ k. used + k ≤ most) }
{
    let start = c.place();
    let n = c.number()? as usize;
    if used + n > most {
        return Err(TableFault::Outside(start));
    }
    Ok(n)
}

// The length of a method's code, where the set has `used` instructions.
fn read_code_count(c: &mut Cursor, used: usize) -> Result<usize, TableFault>
    requires { used ≤ max_instrs }
    ensures took { Took result c.old c.new (λ file p. code_count_at file used p) }
    ensures most { IfOk result (λ k. used + k ≤ max_instrs) }
{
    let start = c.place();
    let n = c.number()? as usize;
    if n < 1 {
        return Err(TableFault::Outside(start));
    }
    if n > MAX_CODE {
        return Err(TableFault::Outside(start));
    }
    if used + n > MAX_INSTRS {
        return Err(TableFault::Outside(start));
    }
    Ok(n)
}

// The parameter types of a method.
pub(crate) fn read_params(c: &mut Cursor, n: u32, t: &mut Tables) -> Result<Span, TableFault>
    requires few { n ≤ all_classes }
    requires room { length (params_of t.old) + max_params ≤ all_params }
    ensures rest { lists_of t.new ≡ record (lists_of t.old) { params = params_of t.new } }
    ensures most { IfOk result (λ s. s.count ≤ max_params) }
    ensures went { Went c.old c.new (Grew result (params_of t.old) (params_of t.new)) (λ file p. params_at file n p) }
{
    let count = at_most(c, MAX_PARAMS as u32)?;
    grow(c, n, count as usize, &mut t.params)
}

// The code of a method.
pub(crate) fn read_code(c: &mut Cursor, t: &mut Tables) -> Result<Span, TableFault>
    ensures rest { lists_of t.new ≡ record (lists_of t.old) { instrs = instrs_of t.new } }
    ensures went { Went c.old c.new (Grew result (instrs_of t.old) (instrs_of t.new)) (λ file p. code_at file (length (instrs_of t.old)) p) }
{
    let count = read_code_count(c, t.instrs.len())?;
    grow(c, 0, count, &mut t.instrs)
}

// The handlers of a method.
pub(crate) fn read_handlers(c: &mut Cursor, t: &mut Tables) -> Result<Span, TableFault>
    ensures rest { lists_of t.new ≡ record (lists_of t.old) { handlers = handlers_of t.new } }
    ensures went { Went c.old c.new (Grew result (handlers_of t.old) (handlers_of t.new)) (λ file p. handlers_at file (length (handlers_of t.old)) p) }
{
    let count = read_more(c, t.handlers.len(), MAX_HANDLERS)?;
    grow(c, 0, count, &mut t.handlers)
}

// The fields of a class beside the `inherited` ones.
pub(crate) fn read_fields(
    c: &mut Cursor,
    n: u32,
    inherited: usize,
    t: &mut Tables,
) -> Result<Span, TableFault>
    requires few { n ≤ all_classes }
    requires above { inherited ≤ 65536 }
    requires room { length (fields_of t.old) + max_fields ≤ all_fields }
    ensures rest { lists_of t.new ≡ record (lists_of t.old) { fields = fields_of t.new } }
    ensures most { IfOk result (λ s. s.count ≤ max_fields) }
    ensures went { Went c.old c.new (Grew result (fields_of t.old) (fields_of t.new)) (λ file p. then (more_at file inherited max_fields p) (λ k q. counted (field_at file n) k [] q)) }
{
    let count = read_more(c, inherited, MAX_FIELDS)?;
    grow(c, n, count, &mut t.fields)
}
