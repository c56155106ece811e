// A method of a class, read behind those that the tables have.
ghost use Rattle.std.specs.Prelude.{◌<◌, ◌≤◌, length, OnOk};
ghost use Rattle.format.specs.Reading.{Left};
ghost use Rattle.format.specs.Parse.{result_at};
ghost use Rattle.tables.specs.Spans.{part, Within};
ghost use Rattle.tables.specs.Views.{methods_of, params_of, program_of};
ghost use Rattle.set.specs.Progress.{mine, Tallied, MoreMethods, method_step};
ghost use Rattle.format.specs.Limits.{all_classes, max_methods};
ghost use Rattle.set.specs.Taken.{Took, Went};

use crate::items::{at_most, read_type};
use crate::names::read_name;
use crate::push::push_method;
use crate::signature::may_override;
use crate::spans::{read_code, read_handlers, read_more, read_params};
use format::fault::TableFault;
use format::limits::{MAX_HEIGHT, MAX_REGISTERS};
use jinja::program::{ClassNumber, Name};
use jinja::ty::Ty;
use number::cursor::Cursor;
use tables::records::{MethodRec, Span};
use tables::tables::Tables;

// The result type of a method of that name and those parameters in a class under `s`.
fn read_result(
    c: &mut Cursor,
    n: u32,
    s: ClassNumber,
    name: Name,
    params: Span,
    t: &Tables,
) -> Result<Ty, TableFault>
    requires few { n ≤ all_classes }
    requires within { Within (length (params_of t.now)) params }
    ensures { Took result c.old c.new (λ file p. result_at file n (program_of t.now) s name (part params (params_of t.now)) p) }
{
    let start = c.place();
    let result = read_type(c, n)?;
    if !may_override(t, s, name, params, result) {
        return Err(TableFault::Override(start));
    }
    Ok(result)
}

// Reads a method of a class under `s`, whose first method has the number `first`.
pub(crate) fn read_method(
    c: &mut Cursor,
    n: u32,
    s: ClassNumber,
    first: usize,
    t: &mut Tables,
) -> Result<(), TableFault>
    requires few { n ≤ all_classes }
    requires room { length (methods_of t.old) < max_methods }
    requires tallied { Tallied first t.old }
    ensures tallied { OnOk result (Tallied first t.new) }
    ensures more { OnOk result (MoreMethods 1 t.old t.new) }
    ensures went { Went c.old c.new (λ q. Left result (mine first t.new, q)) (λ file p. method_step file n (program_of t.old) s (mine first t.old) p) }
{
    let name = read_name(c, &t.methods.as_slice()[first..])?;
    let params = read_params(c, n, t)?;
    let result = read_result(c, n, s, name, params, t)?;
    let height = at_most(c, MAX_HEIGHT)?;
    let extras = read_more(c, 1 + params.count, MAX_REGISTERS)?;
    let code = read_code(c, t)?;
    let handlers = read_handlers(c, t)?;
    let method = MethodRec {
        name,
        params,
        result,
        height: height as u8,
        extras: extras as u8,
        code,
        handlers,
    };
    push_method(t, method);
    Ok(())
}
