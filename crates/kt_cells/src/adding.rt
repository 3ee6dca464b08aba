//! Lines and cells that are put behind others.
//! Cited by ballot_cells.rt, cells.rt, node_cells.rt, request_cells.rt, saved_cells.rt; other crates.

ghost use Rattle.std.specs.Prelude.{◌≡◌, ◌++◌, ◌∷◌, [], OnOk};
ghost use Rattle.kt_cells.specs.Cells.{said_if};
ghost use Rattle.kt_cells.specs.Texts.{cells_text, text_of};

use std::alloc::{AllocError, Global};

/// Puts the cell behind the others.
#[tactic(auto, using(crate::proofs::Added::cell_more))]
pub(crate) fn add_cell(cells: &mut Vec<Vec<Vec<u8>>>, lines: Vec<Vec<u8>>) -> Result<(), AllocError>
    ensures { OnOk result (cells_text cells.new.items ≡ cells_text cells.old.items ++ text_of lines.items ∷ []) }
{
    cells.push(lines)?;
    Ok(())
}

/// Puts the line behind the others.
#[tactic(auto, using(crate::proofs::Added::line_more))]
pub(crate) fn add_line(lines: &mut Vec<Vec<u8>>, line: Vec<u8>) -> Result<(), AllocError>
    ensures { OnOk result (text_of lines.new.items ≡ text_of lines.old.items ++ line.items ∷ []) }
{
    lines.push(line)?;
    Ok(())
}

/// Puts a line of these characters behind the others.
pub fn add_text(alloc: Global, lines: &mut Vec<Vec<u8>>, text: &[u8]) -> Result<(), AllocError>
    ensures { OnOk result (text_of lines.new.items ≡ text_of lines.old.items ++ text.now ∷ []) }
{
    let line = Vec::from_slice(alloc, text)?;
    add_line(lines, line)?;
    Ok(())
}

/// The same, where that is to be said.
pub(crate) fn add_text_if(
    alloc: Global,
    lines: &mut Vec<Vec<u8>>,
    is_said: bool,
    text: &[u8],
) -> Result<(), AllocError>
    ensures { OnOk result (text_of lines.new.items ≡ text_of lines.old.items ++ said_if is_said text.now) }
{
    if is_said {
        add_text(alloc, lines, text)?;
    }
    Ok(())
}
