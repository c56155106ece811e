// Numbers at the edges of what is read.
use crate::cursor::Cursor;
use crate::fault::NumberFault;
use crate::pen::{Pen, Short};
use crate::signed::{from_signed, to_signed};

fn first(file: &[u8]) -> Result<u32, NumberFault> {
    Cursor::new(file).number()
}

#[test]
fn reads_up_to_the_greatest(rt: HostRuntime) {
    assert_eq!(rt; first(&[0]), Ok(0));
    assert_eq!(rt; first(&[0x80, 0x01]), Ok(128));
    assert_eq!(rt; first(&[0xff, 0xff, 0xff, 0xff, 0x0f]), Ok(4_294_967_295));
}

#[test]
fn refuses_what_is_cut_padded_or_oversize(rt: HostRuntime) {
    assert_eq!(rt; first(&[]), Err(NumberFault::Cut(0)));
    assert_eq!(rt; first(&[0x80]), Err(NumberFault::Cut(0)));
    assert_eq!(rt; first(&[0x84, 0x00]), Err(NumberFault::Padded(0)));
    assert_eq!(rt;
        first(&[0x80, 0x80, 0x80, 0x80, 0x00]),
        Err(NumberFault::Padded(0))
    );
    assert_eq!(rt;
        first(&[0xff, 0xff, 0xff, 0xff, 0x10]),
        Err(NumberFault::Oversize(0))
    );
    assert_eq!(rt;
        first(&[0x80, 0x80, 0x80, 0x80, 0x80]),
        Err(NumberFault::Oversize(0))
    );
    assert_eq!(rt;
        first(&[0x80, 0x80, 0x80, 0x80, 0x80, 0x00]),
        Err(NumberFault::Oversize(0))
    );
}

#[test]
fn refuses_at_the_place_where_the_number_began(rt: HostRuntime) {
    let mut cursor = Cursor::new(&[0x07, 0x81, 0x82]);
    assert_eq!(rt; cursor.number(), Ok(7));
    let fault = cursor.number();
    assert_eq!(rt; fault, Err(NumberFault::Cut(1)));
    assert_eq!(rt; cursor.place(), 1);
    assert!(rt; !cursor.at_end());
    assert_eq!(rt;
        (
            NumberFault::Padded(3).number(),
            NumberFault::Padded(3).place(),
        ),
        (2, 3)
    );
}

#[test]
fn signs_go_both_ways(rt: HostRuntime) {
    assert_eq!(rt;
        (from_signed(0), from_signed(-1), from_signed(1)),
        (0, 1, 2)
    );
    assert_eq!(rt;
        (from_signed(i32::MIN), from_signed(i32::MAX)),
        (4_294_967_295, 4_294_967_294)
    );
    assert_eq!(rt;
        (to_signed(4_294_967_295), to_signed(4_294_967_294)),
        (i32::MIN, i32::MAX)
    );
}

#[test]
fn puts_what_has_room(rt: HostRuntime) {
    let mut out = [9; 3];
    let mut dry = Pen::new(&mut out, true);
    assert_eq!(rt; dry.put_number(300), Ok(()));
    assert_eq!(rt; dry.place(), 2);
    assert_eq!(rt; dry.put_number(300), Err(Short));
    assert_eq!(rt; out, [9, 9, 9]);
    let mut pen = Pen::new(&mut out, false);
    assert_eq!(rt; pen.put_number(300), Ok(()));
    assert_eq!(rt; out, [0xac, 0x02, 9]);
}
