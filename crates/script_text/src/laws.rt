ghost use Rattle.std.specs.Prelude.{◌≡◌, ◌↔◌, ℕ, List, Ok};
ghost use Rattle.script_text.specs.Script.{script_of};
ghost use Rattle.script_text.specs.Grammar.{IsScript};
ghost use Rattle.flat_model.specs.declared.request.Line.{Line};

/// Law: bytes are read as these lines exactly where they are a script with them by the grammar (own).
pub fn script_law()
    ensures { (bytes : List ℕ) (lines : List Line) → (script_of bytes ≡ Ok lines) ↔ IsScript bytes lines }
{}
