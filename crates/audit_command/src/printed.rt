//! What is told in free words is printed, and stands in a line where it has to. No word of the program
//! breaks that; so that nobody has to trust it, it is asked once more here.

ghost use Rattle.std.specs.Prelude.{◌≡◌, string_bytes, IfOk};
ghost use Rattle.std.specs.List.{list_any};
ghost use Rattle.audit_command.specs.Printed.{breaks_line, IsLine, AreLines};

use std::alloc::{AllocError, Global};

/// Whether a byte is neither printed nor a space.
fn breaks_line(byte: u8) -> bool
    ensures { result ≡ breaks_line byte }
{
    byte < b' ' || byte > b'~'
}

fn some_break(text: &[u8]) -> bool
    ensures { result ≡ list_any breaks_line text.now }
{
    text.iter().any(|byte| breaks_line(*byte))
}

/// The text, where it is a line.
pub fn only_line(alloc: Global, text: String) -> String
    ensures line { IsLine (string_bytes result) }
    ensures same { IsLine (string_bytes text) → result ≡ text }
{
    if some_break(text.as_bytes()) {
        String::new(alloc)
    } else {
        text
    }
}

/// Texts, each where it is a line.
pub fn only_lines(alloc: Global, texts: Vec<String>) -> Result<Vec<String>, AllocError>
    ensures lines { IfOk result (λ lines. AreLines lines.items) }
    ensures same { AreLines texts.items → IfOk result (λ lines. lines.items ≡ texts.items) }
{
    let mut lines = Vec::new(alloc);
    for text in texts {
        lines.push(only_line(alloc, text))?;
    }
    Ok(lines)
}
