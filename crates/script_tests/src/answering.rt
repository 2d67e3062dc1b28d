use blk_base::{Ino, Text};
use flat_model::{Answer, Reason};
use io_edge::{MemorySink, SinkFailed};
use script_answer::{put_answer, put_done};
use std::alloc::Global;
use std::test::Fail;

/// Adds the line of caller 7 with this answer.
fn add(to: &mut MemorySink, answer: Answer) -> Result<(), Fail> {
    put_answer(to, 7, &answer)?;
    Ok(())
}

/// The lines of the answers that say more than `ok`.
fn done(alloc: Global) -> Result<MemorySink, Fail> {
    let mut to = MemorySink::new(alloc, &[])?;
    add(&mut to, Answer::Plain)?;
    add(&mut to, Answer::Number(18_446_744_073_709_551_615))?;
    add(&mut to, Answer::Bytes(Text::new(alloc, b"")?))?;
    add(&mut to, Answer::Bytes(Text::new(alloc, b"a \\~\x7f\xfb")?))?;
    add(&mut to, Answer::Already)?;
    add(&mut to, Answer::Log)?;
    add(&mut to, Answer::Commit(Reason::Conflicts(9)))?;
    add(&mut to, Answer::Commit(Reason::GoneDir(Ino(257))))?;
    add(&mut to, Answer::Commit(Reason::Space { free: 3, need: 4 }))?;
    add(&mut to, Answer::Commit(Reason::FailedLog(1)))?;
    add(&mut to, Answer::Full)?;
    add(&mut to, Answer::Sync)?;
    Ok(to)
}

/// The lines of the refusals.
fn refused(alloc: Global) -> Result<MemorySink, Fail> {
    let mut to = MemorySink::new(alloc, &[])?;
    add(&mut to, Answer::Xdev)?;
    add(&mut to, Answer::NoEnt)?;
    add(&mut to, Answer::NotDir)?;
    add(&mut to, Answer::IsDir)?;
    add(&mut to, Answer::Exists)?;
    add(&mut to, Answer::NotEmpty)?;
    add(&mut to, Answer::Loop)?;
    add(&mut to, Answer::Links)?;
    add(&mut to, Answer::TooLarge)?;
    add(&mut to, Answer::NoAttr)?;
    add(&mut to, Answer::Collide)?;
    add(&mut to, Answer::NoSpace { free: 0, need: 12 })?;
    add(&mut to, Answer::Io)?;
    put_answer(&mut to, 16, &Answer::Plain)?;
    put_done(&mut to, 14)?;
    Ok(to)
}

const DONE: &[u8] = b"7 ok
7 ok 18446744073709551615
7 ok
7 ok a\\x20\\x5c~\\x7f\\xfb
7 ok already
7 ok log
7 ok commit conflicts 9
7 ok commit gone 257
7 ok commit space 3 4
7 ok commit failed 1
7 ok full
7 ok sync
";

const REFUSED: &[u8] = b"7 xdev
7 noent
7 notdir
7 isdir
7 exists
7 notempty
7 loop
7 links
7 toolarge
7 noattr
7 collide
7 nospace 0 12
7 io
16 ok
done 14
";

#[test]
fn answers_have_their_words(rt: HostRuntime) -> Result<(), Fail> {
    assert_eq!(rt; done(rt.alloc())?.bytes(), DONE);
    assert_eq!(rt; refused(rt.alloc())?.bytes(), REFUSED);
    Ok(())
}

#[test]
fn a_sink_that_fails_ends_a_line(rt: HostRuntime) -> Result<(), Fail> {
    let mut to = MemorySink::new(rt.alloc(), &[3])?;
    let answer = Answer::Full;
    assert_eq!(rt; put_answer(&mut to, 7, &answer), Err(SinkFailed));
    assert_eq!(rt; put_done(&mut to, 1), Ok(()));
    Ok(())
}
