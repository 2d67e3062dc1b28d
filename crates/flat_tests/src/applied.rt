//! Operations on the plain volume: what each answers, worked out by hand.
use flat_volume::{FlatVolume, is_in_limits};
use operation_rows::{is_said, operation, scripts};
use std::test::Fail;

#[test]
fn operations_answer_as_worked_out(rt: HostRuntime) -> Result<(), Fail> {
    let alloc = rt.alloc();
    let mut volume = FlatVolume::empty(alloc, 2)?;
    for script in scripts() {
        for line in script.lines() {
            let Some((words, want)) = line.split_once(" = ") else {
                volume = FlatVolume::empty(alloc, 2)?;
                continue;
            };
            let op = operation(alloc, words)?;
            assert!(rt; is_in_limits(&op), "at {line}");
            let answer = volume.apply(alloc, &op)?;
            assert!(rt; is_said(alloc, &answer, want)?, "at {line}");
            assert!(rt; volume.coherent(), "after {line}");
        }
    }
    Ok(())
}
