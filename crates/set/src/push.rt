// One more class or method in the tables, and tables with nothing in them.
ghost use Rattle.std.specs.Prelude.{◌≡◌, ◌<◌, true, [], ◌∷◌, ◌++◌, length};
ghost use Rattle.tables.specs.Spans.{FieldsWithin, MethodsWithin, ParamsWithin, CodeWithin, HandlersWithin, chained};
ghost use Rattle.tables.specs.Views.{classes_of, fields_of, methods_of, params_of, instrs_of, handlers_of, program_of};
ghost use Rattle.set.specs.Grown.{lists_of};
ghost use Rattle.set.specs.Progress.{Empty};
ghost use Rattle.format.specs.Limits.{max_classes, max_methods};

use tables::records::{ClassRec, MethodRec};
use tables::tables::Tables;

pub(crate) fn push_method(t: &mut Tables, m: MethodRec)
    requires room { length (methods_of t.old) < max_methods }
    requires params { ParamsWithin (length (params_of t.old)) m }
    requires code { CodeWithin (length (instrs_of t.old)) m }
    requires handlers { HandlersWithin (length (handlers_of t.old)) m }
    ensures methods { methods_of t.new ≡ methods_of t.old ++ m ∷ [] }
    ensures rest { lists_of t.new ≡ record (lists_of t.old) { methods = methods_of t.new } }
{
    // there is room
    let _ = t.methods.push(m);
}

pub(crate) fn push_class(t: &mut Tables, k: ClassRec)
    requires room { length (classes_of t.old) < max_classes }
    requires fields { FieldsWithin (length (fields_of t.old)) k }
    requires methods { MethodsWithin (length (methods_of t.old)) k }
    requires numbered { chained 0 (classes_of t.old ++ k ∷ []) ≡ true }
    ensures classes { classes_of t.new ≡ classes_of t.old ++ k ∷ [] }
    ensures rest { lists_of t.new ≡ record (lists_of t.old) { classes = classes_of t.new } }
{
    // there is room
    let _ = t.classes.push(k);
}

pub(crate) fn clear(t: &mut Tables)
    ensures empty { Empty t.new }
    ensures program { program_of t.new ≡ [] }
{
    t.classes.clear();
    t.fields.clear();
    t.methods.clear();
    t.params.clear();
    t.instrs.clear();
    t.handlers.clear();
}
