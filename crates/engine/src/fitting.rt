// Whether values fit types, by the classes of a heap's objects.
ghost use Rattle.std.specs.Prelude.{◌≡◌, List};
ghost use Rattle.heap.specs.declared.charge.ChargeLine.{ChargeLine};
ghost use Rattle.heap.specs.Calls.{vacant};
ghost use Rattle.jinja.specs.Types.{type_number, same_type};
ghost use Rattle.jinja.specs.Transfer.{class_le, null_le};
ghost use Rattle.jinja.specs.Values.{fits, fit_all};
ghost use Rattle.tables.specs.Views.{program_of};

use crate::objects::class_at;
use heap::store::Heap;
use heap::value::Value;
use jinja::ty::Ty;
use tables::tables::Tables;

// Whether the value fits the type.
#[inline(always)]
pub(crate) fn fits<H: Heap>(tables: &Tables, heap: &H, v: Value, t: Ty) -> bool
    ensures { result ≡ fits (program_of tables.now) (H.Heap.meaning heap.now) v t }
{
    match v {
        Value::Addr(a) => match class_at(heap, a) {
            Some(c) => tables.class_at_or_below(c, t),
            None => false,
        },
        _ => fits_alone(tables, v, t),
    }
}

// Whether the value fits the type where there are no objects.
#[inline(always)]
fn fits_alone(tables: &Tables, v: Value, t: Ty) -> bool
    ensures { (ls : List ChargeLine) → result ≡ fits (program_of tables.now) (vacant ls) v t }
{
    match v {
        Value::Unit => t == Ty::Void,
        Value::Null => tables.null_at_or_below(t),
        Value::Bool(_) => t == Ty::Boolean,
        Value::Int(_) => t == Ty::Integer,
        Value::Addr(_) => false,
    }
}

// Whether there are as many values as types, and each fits.
#[inline(always)]
pub(crate) fn fit_all<H: Heap>(tables: &Tables, heap: &H, values: &[Value], types: &[Ty]) -> bool
    ensures { result ≡ fit_all (program_of tables.now) (H.Heap.meaning heap.now) values.now types.now }
{
    if values.len() != types.len() {
        return false;
    }
    for (v, t) in values.iter().zip(types) {
        if !fits(tables, heap, *v, *t) {
            return false;
        }
    }
    true
}

// The same where there are no objects. (No test passed in: what a test says of each pair would be longer than this loop.)
pub(crate) fn fit_alone(tables: &Tables, values: &[Value], types: &[Ty]) -> bool
    ensures { (ls : List ChargeLine) → result ≡ fit_all (program_of tables.now) (vacant ls) values.now types.now }
{
    if values.len() != types.len() {
        return false;
    }
    for (v, t) in values.iter().zip(types) {
        if !fits_alone(tables, *v, *t) {
            return false;
        }
    }
    true
}
