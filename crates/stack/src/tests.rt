// Two users of the stack: type cells in a part of a workspace, and run values in a field of a struct.
ghost use Rattle.std.specs.Prelude.{◌≡◌, ◌+◌, ◌-◌, ◌<◌, min, length, MatchOption, slice_set};

use super::*;

// The two topmost cells give way to one; the stack is all of `cells`.
fn merge(cells: &mut [u16], height: usize, t: u16) -> Option<usize>
    ensures { MatchOption result ((min height (length cells.old) < 2) × (cells.new ≡ cells.old)) (λ k. (k + 1 ≡ min height (length cells.old)) × (cells.new ≡ slice_set cells.old (k - 1) t)) }
{
    let mut s = Stack::over(cells, height);
    s.discard(2).ok()?;
    s.push(t).ok()?;
    Some(s.height())
}

#[test]
fn type_cells_in_a_part(rt: HostRuntime) {
    let mut workspace = [9u16, 9, 1, 2, 3, 9, 9];
    assert!(rt; merge(&mut workspace[2..6], 3, 7) == Some(2));
    assert!(rt; merge(&mut workspace[2..6], 1, 7) == None);
    assert!(rt; workspace == [9, 9, 1, 7, 3, 9, 9]);
}

#[derive(Clone, Copy, PartialEq, Drop)]
enum Value {
    Integer(i32),
    Address(u16),
}

#[derive(Drop)]
struct Frame {
    cells: [Value; 3],
}

// The top gives way to `top`, and `x` comes on top of it; what is then on top, and below it.
fn replace_and_push(
    cells: &mut [Value],
    height: usize,
    top: Value,
    x: Value,
) -> Option<(Value, Value)> {
    let mut s = Stack::over(cells, height);
    s.replace(top).ok()?;
    s.push(x).ok()?;
    let below = s.below(1)?;
    Some((s.pop()?, below))
}

#[test]
fn run_values_in_a_frame(rt: HostRuntime) {
    let (five, place) = (Value::Integer(5), Value::Address(3));
    let mut f = Frame { cells: [five; 3] };
    assert!(rt; replace_and_push(&mut f.cells[0..2], 1, place, five) == Some((five, place)));
    assert!(rt; replace_and_push(&mut f.cells[0..2], 0, five, five).is_none());
    assert!(rt; replace_and_push(&mut f.cells[0..2], 2, five, place).is_none());
    assert!(rt; f.cells == [place, five, five]);
}
