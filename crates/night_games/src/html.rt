//! Texts in a page of HTML: none of their bytes is read as markup.
ghost use Rattle.std.specs.Prelude.{◌≡◌, ◌++◌, flat_map, map, OnOk};
ghost use Rattle.std.specs.String.{string_bytes};
ghost use Rattle.night_games.specs.Html as spec;

use std::alloc::AllocError;

// A byte in a text.
fn push_byte(out: &mut Vec<u8>, byte: u8) -> Result<(), AllocError>
    ensures { OnOk result (out.new.items ≡ out.old.items ++ spec.escaped_byte byte) }
{
    if byte == b'&' {
        out.extend_from_slice(b"&amp;")?;
    } else if byte == b'<' {
        out.extend_from_slice(b"&lt;")?;
    } else if byte == b'>' {
        out.extend_from_slice(b"&gt;")?;
    } else if byte == b'"' {
        out.extend_from_slice(b"&quot;")?;
    } else if byte == b'\'' {
        out.extend_from_slice(b"&#39;")?;
    } else {
        out.push(byte)?;
    }
    Ok(())
}

/// Puts a text behind others as it stands in a page, in an element or in the quotes of an attribute. It fails where
/// memory is refused.
pub fn push_text(out: &mut Vec<u8>, text: &[u8]) -> Result<(), AllocError>
    ensures { OnOk result (out.new.items ≡ out.old.items ++ spec.escaped text.now) }
{
    for byte in text {
        push_byte(out, *byte)?;
    }
    Ok(())
}

// Puts what stands before the text of a cell.
fn push_front(out: &mut Vec<u8>, is_line: bool) -> Result<(), AllocError>
    ensures { OnOk result (out.new.items ≡ out.old.items ++ spec.cell_front is_line) }
{
    if is_line {
        out.extend_from_slice(b"<td colspan=\"7\">")
    } else {
        out.extend_from_slice(b"<td>")
    }
}

// Puts a cell with a text, over all columns where it is a line of its own.
fn push_cell(out: &mut Vec<u8>, is_line: bool, text: &str) -> Result<(), AllocError>
    ensures { OnOk result (out.new.items ≡ out.old.items ++ spec.cell is_line text.now) }
{
    push_front(out, is_line)?;
    push_text(out, text.as_bytes())?;
    out.extend_from_slice(b"</td>")?;
    Ok(())
}

// Puts the cells of texts.
fn push_cells(out: &mut Vec<u8>, is_line: bool, texts: &[String]) -> Result<(), AllocError>
    ensures { OnOk result (out.new.items
        ≡ out.old.items ++ flat_map (spec.cell is_line) (map string_bytes texts.now)) }
{
    for text in texts {
        push_cell(out, is_line, text.as_str())?;
    }
    Ok(())
}

// Puts a row of a table.
fn push_row(out: &mut Vec<u8>, texts: &[String]) -> Result<(), AllocError>
    ensures { OnOk result (out.new.items ≡ out.old.items ++ spec.row (map string_bytes texts.now)) }
{
    out.extend_from_slice(b"<tr>")?;
    push_cells(out, texts.len() == 1, texts)?;
    out.extend_from_slice(b"</tr>\n")?;
    Ok(())
}

/// Puts rows of a table, of which one with a single text takes all columns. It fails where memory is refused.
pub(crate) fn push_rows(out: &mut Vec<u8>, rows: &[Vec<String>]) -> Result<(), AllocError>
    ensures { OnOk result (out.new.items
        ≡ out.old.items ++ spec.rows (map (λ row. map string_bytes row.items) rows.now)) }
{
    for row in rows {
        push_row(out, row.as_slice())?;
    }
    Ok(())
}
