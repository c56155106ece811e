// The set of no classes, whose file is one byte.
use crate::fault::WriteFault;
use crate::writing::{write, written_len};
use set::set::Set;

#[test]
fn writes_into_an_output_of_its_length(rt: HostRuntime) {
    assert_eq!(rt; written_len(&Set::empty()), 1);
    let mut out = [7];
    assert_eq!(rt; write(&Set::empty(), &mut out), Ok(1));
    assert_eq!(rt; out[0], 0);
}

#[test]
fn leaves_the_bytes_behind_the_file(rt: HostRuntime) {
    let mut out = [7, 8];
    assert_eq!(rt; write(&Set::empty(), &mut out), Ok(1));
    assert_eq!(rt; out[0], 0);
    assert_eq!(rt; out[1], 8);
}

#[test]
fn refuses_an_output_that_is_too_short(rt: HostRuntime) {
    assert_eq!(rt; write(&Set::empty(), &mut []), Err(WriteFault::Short));
    assert_eq!(rt; WriteFault::Short.number(), 10);
    assert_eq!(rt; WriteFault::Short.place(), 0);
}
