// How tables begin.
ghost use Rattle.std.specs.Prelude.{◌≡◌, []};
ghost use Rattle.tables.specs.Views.{classes_of, fields_of, methods_of, params_of, instrs_of, handlers_of, program_of};

use crate::records::{ClassRec, MethodRec, Span};
use crate::tables::Tables;
use filled::filled::Filled;
use jinja::instr::Instr;
use jinja::program::{Field, Handler};
use jinja::ty::Ty;

impl Tables {
    /// Tables that hold nothing.
    pub fn empty() -> Tables
        ensures program { program_of result ≡ [] }
        ensures classes { classes_of result ≡ [] }
        ensures fields { fields_of result ≡ [] }
        ensures methods { methods_of result ≡ [] }
        ensures params { params_of result ≡ [] }
        ensures instrs { instrs_of result ≡ [] }
        ensures handlers { handlers_of result ≡ [] }
    {
        let none = Span { first: 0, count: 0 };
        let class = ClassRec {
            superclass: 0,
            fields: none,
            methods: none,
        };
        let field = Field {
            name: 0,
            ty: Ty::Void,
        };
        let method = MethodRec {
            name: 0,
            params: none,
            result: Ty::Void,
            height: 0,
            extras: 0,
            code: none,
            handlers: none,
        };
        let handler = Handler {
            first: 0,
            end: 0,
            class: 0,
            target: 0,
            depth: 0,
        };
        Tables {
            classes: Filled::new(class),
            fields: Filled::new(field),
            methods: Filled::new(method),
            params: Filled::new(Ty::Void),
            instrs: Filled::new(Instr::Return),
            handlers: Filled::new(handler),
        }
    }
}
