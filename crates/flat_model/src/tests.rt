use crate::{Op, Path, Place};
use blk_base::{SubId, Text};
use std::test::Fail;

#[test]
fn an_operation_is_copied(rt: HostRuntime) -> Result<(), Fail> {
    let alloc = rt.alloc();
    let place = Place {
        sub: SubId(256),
        path: Path::new(Vec::new(alloc)),
    };
    let op = Op::Write(place, 4095, Text::new(alloc, b"abc")?);
    let Op::Write(place, offset, text) = op.copy(alloc)? else {
        return Err(Fail::from("another operation"));
    };
    assert_eq!(rt; place.sub, SubId(256));
    assert_eq!(rt; place.path.names().len(), 0);
    assert_eq!(rt; offset, 4095);
    assert_eq!(rt; text.len(), 3);
    Ok(())
}
