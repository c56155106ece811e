// Codes whose paths agree, disagree, and take more than there is.
use super::*;

const NEXT: u16 = 256;

#[test]
fn paths_agree(rt: HostRuntime) {
    let steps = [NEXT, NEXT, 1, NEXT];
    let mut workspace = [9u16; 133];
    assert_eq!(rt; stack_heights(&Code::new(&steps), &mut workspace), Ok(()));
    assert_eq!(rt;
        [
            workspace[0],
            workspace[33],
            workspace[66],
            workspace[99],
            workspace[132],
        ],
        [1, 2, 3, 2, 9]
    );
}

#[test]
fn paths_disagree(rt: HostRuntime) {
    let steps = [NEXT, NEXT, 0];
    let mut workspace = [9u16; 99];
    assert_eq!(rt;
        stack_heights(&Code::new(&steps), &mut workspace),
        Err(Unsolved::Refused)
    );
}

#[test]
fn nothing_to_take(rt: HostRuntime) {
    let mut workspace = [9u16; 33];
    assert_eq!(rt;
        stack_heights(&Code::new(&[0]), &mut workspace),
        Err(Unsolved::Refused)
    );
}

#[test]
fn no_room(rt: HostRuntime) {
    let mut workspace = [9u16; 32];
    assert_eq!(rt;
        stack_heights(&Code::new(&[NEXT]), &mut workspace),
        Err(Unsolved::Short)
    );
    assert_eq!(rt; workspace, [9; 32]);
}
