use blk_base::{SubId, Text};
use flat_model::{Line, Op, Request};
use script_text::{ScriptFault, parse};
use std::alloc::Global;
use std::test::Fail;

/// What a script gives: the number of its lines that do something, or its fault.
type Given = Result<usize, (u32, &'static str)>;

fn given(alloc: Global, script: &[u8]) -> Result<Given, Fail> {
    match parse(alloc, script) {
        Ok(script) => Ok(Ok(script.lines().len())),
        Err(ScriptFault::Bad { line, kind }) => Ok(Err((line, kind.word()))),
        Err(ScriptFault::OutOfMemory) => Err(Fail::from("no memory")),
    }
}

/// Scripts of one line and without a fault, each in a line of its own.
const GOOD: &[u8] = b"1 sync
16 sync
1 create /
1 create /a
1 create 0:/
1 create 256:/a/b
1 create 18446744073709551615:/a
1 create /\\x61\\\\\\xff
1 create /a:b
1 write /a 0 x
1 write /a 18446744073709551615 \\x00
1 mkdir /d
1 symlink /s t
1 link /a 256:/b
1 unlink /a
1 rmdir /d
1 rename /a /b
1 exchange /a /b
1 lookup /
1 fill /a 0 65536 255
1 fill /a 18446744073709551615 1 0
1 truncate /a 18446744073709551615
1 read /a 0 0
1 read /a 7 65536
1 setattr /a user.k v
1 delattr /a user.k
1 getattr /a \\x61";

/// Scripts of one line whose caller is none.
const NO_CALLER: &[u8] = b"17 sync
0 sync
01 sync
x sync
 1 sync
+1 sync
\\x31 sync";

/// Scripts of one line that are no request.
const NO_REQUEST: &[u8] = b"1
1 
1  create /a
1 sync 
1 sync x
1 Sync
1 start
1 create
1 create /a /b
1 write /a\\ 0
1 write /a\\ 0 x y
1 Mkdir /d
1 mkdir
1 link /a
1 rename /a /b /c
1 fill /a 0 1
1 read /a\\ 0
1 truncate /a
1 symlink /s
1 setattr /a user.k
1 getattr /a
1 fsync /a
1 fdatasync /a";

/// Scripts of one line with a word that should be a number.
const NO_NUMBER: &[u8] = b"1 write /a 00 x
1 write /a -1 x
1 write /a 18446744073709551616 x
1 write /a \\x30 x
1 fill /a x 0 256
1 fill /a 0 0 1
1 fill /a 0 65537 1
1 fill /a 0 1 256
1 read /a 0 65537
1 truncate /a 1e3";

/// Scripts of one line with a word that should be a path.
const NO_PATH: &[u8] = b"1 write a 0 x
1 write /a/ 0 x
1 write //a 0 x
1 write /. 0 x
1 write /\\x2f 0 x
1 write /\\x00 0 x
1 create 5:/a
1 create \\x36:/a
1 create 06:/a
1 create 256:
1 create 256/a
1 mkdir d
1 link /a b
1 rename a /b\\q
1 setattr /a . v
1 delattr /a \\x00
1 getattr /a a/b";

/// Scripts of one line with a backslash out of its forms.
const NO_ESCAPE: &[u8] = b"1 write /a\\ 0 x
1 write /\\x0 0 x
1 write /\\xFF 0 x
1 write a\\/b 0 x
1 write //\\q 0 x
1 write /a 0 \\
1 symlink /s \\x0
1 exchange /a /b\\q
1 setattr /a k\\ v
1 setattr /a k \\y";

/// Whether each of the lines, taken as a script of its own, gives this.
fn all_give(alloc: Global, lines: &[u8], want: Given) -> Result<bool, Fail> {
    for line in lines.split(|byte| *byte == b'\n') {
        if given(alloc, line)? != want {
            return Ok(false);
        }
    }
    Ok(true)
}

#[test]
fn tells_scripts(rt: HostRuntime) -> Result<(), Fail> {
    let alloc = rt.alloc();
    let lines: [(&[u8], Given); 6] = [
        (GOOD, Ok(1)),
        (NO_CALLER, Err((1, "caller"))),
        (NO_REQUEST, Err((1, "word"))),
        (NO_NUMBER, Err((1, "number"))),
        (NO_PATH, Err((1, "path"))),
        (NO_ESCAPE, Err((1, "escape"))),
    ];
    for (lines, want) in lines {
        assert!(rt; all_give(alloc, lines, want)?);
    }
    let scripts: [(&[u8], Given); 5] = [
        (b"", Ok(0)),
        (b"#\xff\n\n16 sync\n# x\n", Ok(1)),
        (b"1 sync\n2 sync", Ok(2)),
        (b"#\n\n1 sync\n1 create a\n0 sync", Err((4, "path"))),
        (b"1 sync\n0 \xe9", Err((2, "utf8"))),
    ];
    for (script, want) in scripts {
        assert_eq!(rt; given(alloc, script)?, want);
    }
    Ok(())
}

#[test]
fn reads_a_line(rt: HostRuntime) -> Result<(), Fail> {
    let script = parse(rt.alloc(), b"# two names\n16 write 256:/a/\\\\b 7 x\\x00\n")?;
    let [Line::Plain(caller, Request::Op(Op::Write(place, offset, text)))] = script.lines() else {
        return Err(Fail::from("another line"));
    };
    assert_eq!(rt; *caller, 16);
    assert_eq!(rt; place.sub, SubId(256));
    let [first, second] = place.path.names() else {
        return Err(Fail::from("another path"));
    };
    assert_eq!(rt; first.as_bytes(), b"a".as_slice());
    assert_eq!(rt; second.as_bytes(), b"\\b".as_slice());
    assert_eq!(rt; *offset, 7);
    assert!(rt; *text == Text::new(rt.alloc(), b"x\0")?);
    Ok(())
}
