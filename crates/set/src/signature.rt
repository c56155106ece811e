// A method may stand in for the one that its superclass sees under its name, if it has the same types.
ghost use Rattle.std.specs.Prelude.{◌≡◌, Some, None};
ghost use Rattle.jinja.specs.Classes.{maybe};
ghost use Rattle.jinja.specs.Types.{same_types};
ghost use Rattle.format.specs.Rules.{inherited, override_keeps};
ghost use Rattle.tables.specs.Spans.{part};
ghost use Rattle.tables.specs.Views.{params_of, instrs_of, handlers_of, method_view, program_of};

use jinja::program::{ClassNumber, Name};
use jinja::ty::Ty;
use tables::records::{MethodRec, Span};
use tables::tables::Tables;

// Whether a method of those types may be declared under the class `s`.
pub(crate) fn may_override(t: &Tables, s: ClassNumber, name: Name, params: Span, res: Ty) -> bool
    ensures { result ≡ override_keeps (program_of t.now) s name (part params (params_of t.now)) res }
{
    let Some(upper) = inherited(t, s, name) else {
        return true;
    };
    same_types(params.of(t.params.as_slice()), t.params_from(upper)) && res == upper.result
}

// The method that the class `s` sees under the name.
fn inherited(t: &Tables, s: ClassNumber, name: Name) -> Option<MethodRec>
    ensures { maybe result None (λ m. Some (method_view (params_of t.now) (instrs_of t.now) (handlers_of t.now) m)) ≡ inherited (program_of t.now) s name }
{
    let k = t.sees(s, name)?;
    t.method(k)
}

// Whether the types are the same, one by one.
fn same_types(ts: &[Ty], us: &[Ty]) -> bool
    ensures { result ≡ same_types ts.now us.now }
{
    ts == us
}
