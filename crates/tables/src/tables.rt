// The flat tables of a rule set.
ghost use Rattle.std.specs.Prelude.{◌≡◌, true, length};
ghost use Rattle.std.specs.List.{All};
ghost use Rattle.filled.specs.Items.{items_of};
ghost use Rattle.tables.specs.Spans.{FieldsWithin, MethodsWithin, ParamsWithin, CodeWithin, HandlersWithin, chained};

use crate::records::{ClassRec, MethodRec};
use filled::filled::Filled;
use format::limits::{MAX_CLASSES, MAX_FIELDS, MAX_HANDLERS, MAX_INSTRS, MAX_METHODS, MAX_PARAMS};
use jinja::instr::Instr;
use jinja::program::{Field, Handler};
use jinja::ty::Ty;

/// The fields that all classes of a set may declare together.
pub const ALL_FIELDS: usize = MAX_CLASSES * MAX_FIELDS;
/// The parameters that all methods of a set may have together.
pub const ALL_PARAMS: usize = MAX_METHODS * MAX_PARAMS;

/// The tables of a set: own classes, and what they and their methods have, class by class and method by method.
/// Every span lies within its table, and the methods of the classes stand one behind the other from 0 on, so that a
/// method's place is its number.
#[derive(Clone, Copy)]
pub struct Tables {
    pub classes: Filled<ClassRec, MAX_CLASSES>,
    pub fields: Filled<Field, ALL_FIELDS>,
    pub methods: Filled<MethodRec, MAX_METHODS>,
    pub params: Filled<Ty, ALL_PARAMS>,
    pub instrs: Filled<Instr, MAX_INSTRS>,
    pub handlers: Filled<Handler, MAX_HANDLERS>,
    ghost class_fields: { All (FieldsWithin (length (items_of fields))) (items_of classes) },
    ghost class_methods: { All (MethodsWithin (length (items_of methods))) (items_of classes) },
    ghost method_params: { All (ParamsWithin (length (items_of params))) (items_of methods) },
    ghost method_code: { All (CodeWithin (length (items_of instrs))) (items_of methods) },
    ghost method_handlers: { All (HandlersWithin (length (items_of handlers))) (items_of methods) },
    ghost numbered: { chained 0 (items_of classes) ≡ true },
}
