// Run values: the sum of two, the value of a literal, and the place of a jump.
ghost use Rattle.std.specs.Prelude.{◌≡◌, ◌≤◌};
ghost use Rattle.format.specs.Limits.{max_instrs};
ghost use Rattle.jinja.specs.Rule.{jump};
ghost use Rattle.jinja.specs.Step.{as_boolean};
ghost use Rattle.jinja.specs.Values.{literal_value};
ghost use Rattle.engine.specs.Moving.{sum_of};

use heap::value::Value;
use jinja::instr::Literal;

// What Push puts on the operand stack. (No `From`: neither type is of this crate.)
pub(crate) fn value_of(literal: Literal) -> Value
    ensures { result ≡ literal_value literal }
{
    match literal {
        Literal::Unit => Value::Unit,
        Literal::Null => Value::Null,
        Literal::Boolean(b) => Value::Bool(b),
        Literal::Integer(z) => Value::Int(z),
    }
}

// The sum of two integers within 32 bits.
pub(crate) fn sum(v: Value, w: Value) -> Option<Value>
    ensures { result ≡ sum_of v w }
{
    match (v, w) {
        (Value::Int(a), Value::Int(b)) => Some(Value::Int(b.wrapping_add(a))),
        _ => None,
    }
}

// The Boolean in a value.
pub(crate) fn boolean(v: Value) -> Option<bool>
    ensures { result ≡ as_boolean v }
{
    match v {
        Value::Bool(b) => Some(b),
        _ => None,
    }
}

// The place `z` further on from `pc`, if that is no place before the first.
pub(crate) fn place_from(pc: usize, z: i16) -> Option<usize>
    requires { pc ≤ max_instrs }
    ensures { result ≡ jump pc z }
{
    usize::try_from(pc as i32 + z as i32).ok()
}
