use batch_write::{write_batch, write_super_again};
use blk_base::Addr;
use disk_memory::ListDisk;
use disk_model::DeviceFault;
use std::test::Fail;

#[test]
fn calls_are_made_in_order_up_to_one_that_fails(rt: HostRuntime) -> Result<(), Fail> {
    let untried = Err(DeviceFault::Disk { tried: false });
    let tried = Err(DeviceFault::Disk { tried: true });
    let calls = [20, 21, 0, 16];
    let rows = [
        (0, Ok(()), 4),
        (1, untried, 1),
        (2, untried, 2),
        (3, untried, 3),
        (4, tried, 4),
    ];
    for (fails, result, count) in rows {
        let mut disk = ListDisk::<4096>::new(rt.alloc(), fails);
        let first = Box::new(rt.alloc(), [1; 4096])?;
        let second = Box::new(rt.alloc(), [2; 4096])?;
        let batch = [(Addr(81_920), first), (Addr(86_016), second)];
        assert_eq!(rt; write_batch(&mut disk, &batch, &[3; 4096]), result);
        assert_eq!(rt; disk.calls(), &calls[..count]);
    }
    Ok(())
}

#[test]
fn a_superblock_is_written_again(rt: HostRuntime) {
    let mut disk = ListDisk::<4096>::new(rt.alloc(), 1);
    assert_eq!(rt;
        write_super_again(&mut disk, &[3; 4096]),
        Err(DeviceFault::Disk { tried: true })
    );
    assert_eq!(rt; write_super_again(&mut disk, &[3; 4096]), Ok(()));
    assert_eq!(rt; disk.calls(), [16, 16].as_slice());
}
