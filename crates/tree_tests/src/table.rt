use blk_base::{Addr, Block};
use block_table::{BlockTable, Blocks, SlotState};
use std::process::Abort;
use std::test::Fail;

fn take(rt: &impl Abort, table: &mut BlockTable) -> Addr {
    assert!(rt; table.spare() >= 1);
    assert!(rt; table.free_count() >= 1);
    table.take()
}

fn fill(rt: &impl Abort, table: &mut BlockTable, at: Addr, byte: u8) {
    assert!(rt; table.state(at) == SlotState::Dirty);
    *table.block_mut(at) = [byte; 4096];
}

fn byte(rt: &impl Abort, table: &BlockTable, at: Addr) -> u8 {
    assert!(rt; table.state(at) != SlotState::Free);
    table.block(at)[4095]
}

fn list(rt: &impl Abort, table: &mut BlockTable) -> Blocks {
    assert!(rt; table.lists() >= 1);
    table.list()
}

fn seal(rt: &impl Abort, table: &mut BlockTable, at: Addr, out: &mut Blocks) {
    assert!(rt; table.state(at) == SlotState::Dirty);
    assert!(rt; out.room() == table.blocks());
    assert!(rt; out.len() < table.blocks() as usize);
    table.seal(at, out);
}

fn put_back(rt: &impl Abort, table: &mut BlockTable, blocks: Blocks) {
    assert!(rt; table.has_lent(&blocks));
    assert!(rt; table.lists() < 34);
    table.put_back(blocks);
}

fn settle(rt: &impl Abort, table: &mut BlockTable, at: Addr) {
    assert!(rt; table.state(at) == SlotState::Sealed);
    assert!(rt; !table.is_out(at));
    table.settle(at);
}

fn unseal(rt: &impl Abort, table: &mut BlockTable, at: Addr) {
    assert!(rt; table.state(at) == SlotState::Sealed);
    assert!(rt; !table.is_out(at));
    table.unseal(at);
}

fn reuse(rt: &impl Abort, table: &mut BlockTable, at: Addr) {
    let state = table.state(at);
    assert!(rt; state == SlotState::Sealed || state == SlotState::Live);
    assert!(rt; table.spare() >= 1);
    table.reuse(at);
}

fn let_go(rt: &impl Abort, table: &mut BlockTable, at: Addr) {
    assert!(rt; table.state(at) != SlotState::Free);
    assert!(rt; table.state(at) != SlotState::LetGo);
    table.let_go(at);
}

fn release(rt: &impl Abort, table: &mut BlockTable, at: Addr) {
    assert!(rt; table.state(at) == SlotState::LetGo);
    assert!(rt; !table.is_out(at));
    table.release(at);
}

fn stand(rt: &impl Abort, table: &mut BlockTable, at: Addr, from: &Block, is_data: bool) {
    assert!(rt; table.is_allowed(at));
    assert!(rt; table.state(at) == SlotState::Free);
    assert!(rt; table.spare() >= 1);
    table.stand(at, from, is_data);
}

fn is_data(rt: &impl Abort, table: &BlockTable, at: Addr) -> bool {
    assert!(rt; table.is_stood(at));
    table.is_data(at)
}

/// The first block and the last byte of a list.
fn first(rt: &impl Abort, blocks: &Blocks) -> (Addr, u8) {
    assert!(rt; blocks.len() >= 1);
    let (at, block) = blocks.get(0);
    (at, block[4095])
}

fn counts(table: &BlockTable) -> (u32, u32, u32) {
    (table.free_count(), table.spare(), table.lists())
}

#[test]
fn block_goes_round(rt: HostRuntime) -> Result<(), Fail> {
    let mut table = BlockTable::new(rt.alloc(), 4096)?;
    assert_eq!(rt; counts(&table), (4079, 0, 34));
    table.reserve(rt.alloc(), 2)?;
    let at = take(&rt, &mut table);
    fill(&rt, &mut table, at, 7);
    let mut out = list(&rt, &mut table);
    seal(&rt, &mut table, at, &mut out);
    assert_eq!(rt; first(&rt, &out), (at, 7));
    assert!(rt; table.is_out(at));
    assert_eq!(rt; counts(&table), (4078, 1, 33));
    put_back(&rt, &mut table, out);
    unseal(&rt, &mut table, at);
    fill(&rt, &mut table, at, 8);
    let mut out = list(&rt, &mut table);
    seal(&rt, &mut table, at, &mut out);
    reuse(&rt, &mut table, at);
    assert_eq!(rt; byte(&rt, &table, at), 0);
    assert_eq!(rt; first(&rt, &out), (at, 8));
    put_back(&rt, &mut table, out);
    let mut out = list(&rt, &mut table);
    seal(&rt, &mut table, at, &mut out);
    put_back(&rt, &mut table, out);
    settle(&rt, &mut table, at);
    let_go(&rt, &mut table, at);
    release(&rt, &mut table, at);
    assert_eq!(rt; counts(&table), (4079, 1, 34));
    Ok(())
}

#[test]
fn blocks_are_taken_in_order(rt: HostRuntime) -> Result<(), Fail> {
    let mut table = BlockTable::new(rt.alloc(), 16_390)?;
    assert_eq!(rt; table.free_count(), 16_372);
    table.reserve(rt.alloc(), 16_372)?;
    assert!(rt; !table.is_allowed(Addr(16 * 4096)));
    assert!(rt; !table.is_allowed(Addr(17 * 4096 + 1)));
    stand(&rt, &mut table, Addr(19 * 4096), &[1; 4096], true);
    assert!(rt; is_data(&rt, &table, Addr(19 * 4096)));
    for number in 17..16_390 {
        if number != 19 && number != 16_384 {
            assert_eq!(rt; take(&rt, &mut table), Addr(number * 4096));
        }
    }
    assert_eq!(rt; counts(&table), (0, 0, 34));
    for number in [16_389, 300, 1000] {
        let_go(&rt, &mut table, Addr(number * 4096));
    }
    for number in [300, 1000, 16_389] {
        assert_eq!(rt; take(&rt, &mut table), Addr(number * 4096));
    }
    Ok(())
}
