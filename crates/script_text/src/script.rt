ghost use Rattle.std.specs.Prelude.{◌≡◌, Ok, MatchResult};
ghost use Rattle.script_text.specs.Kinds.{IsFaultOf};
ghost use Rattle.script_text.specs.Script.{script_of};

use crate::fault::ScriptFault;
use crate::line::line;
use crate::parts::cut;
use flat_model::Line;
use std::alloc::Global;
use std::marker::Model;

/// A script: its lines that do something, in their order. Seen as their list.
#[derive(Drop, Debug)]
pub struct Script {
    lines: Vec<Line>,
}

impl Model for Script {
    ghost use Rattle.std.specs.Prelude.{List};
    ghost use Rattle.flat_model.specs.declared.request.Line.{Line};

    ghost Value = { List Line };

    ghost view = { λ script. script.lines.items };
}

impl Script {
    /// The lines that do something, in their order.
    pub fn lines(&self) -> &[Line]
        ensures { result.now ≡ self.now }
    {
        self.lines.as_slice()
    }

    /// The lines that do something, in their order, by value.
    pub fn into_lines(self) -> Vec<Line>
        ensures { result.items ≡ self }
    {
        self.lines
    }
}

/// The script that the bytes are, or its first fault: the first line that has one, and in a line the kinds in the order
/// in which `ScriptKind` has them, an argument behind the other, with `Escape` before `Path` (own).
pub fn parse(alloc: Global, bytes: &[u8]) -> Result<Script, ScriptFault>
    ensures { MatchResult result (λ script. script_of bytes.now ≡ Ok script) (λ fault. IsFaultOf fault (script_of bytes.now)) }
{
    let mut lines = Vec::new(alloc);
    let mut number = 0;
    let mut rest = bytes;
    while !rest.is_empty() {
        let (text, after) = cut(rest, b'\n');
        number += 1;
        rest = after;
        match line(alloc, number, text) {
            Ok(Some(line)) => lines.push(line)?,
            Ok(None) => {}
            Err(fault) => return Err(fault.at(number)),
        }
    }
    Ok(Script { lines })
}
