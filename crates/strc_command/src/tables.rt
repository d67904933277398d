//! Rows of tables on the diagnostic stream.
ghost use Rattle.strc_command.specs.Report.{TellsText};

use crate::ending::{write_name, write_pieces};
use crate::report::{FileLine, Reporting};
use itoa::Buffer;
use str_pipeline::{Row, Sink};
use term_model::Fault;

/// Writes the rows of tables: a line for each.
pub(crate) fn write_rows<E: Sink>(
    reporting: Reporting<'_>,
    rows: &[Row],
    diagnostics: &mut E,
) -> Result<(), Fault>
    ensures { TellsText (E.writer.written diagnostics.old) (E.writer.written diagnostics.new) }
{
    for row in rows {
        write_row(reporting, row, diagnostics)?;
    }
    Ok(())
}

/// Writes the row of a table: its text; the file and the line in it that it is about, if there is one; and its note.
fn write_row<E: Sink>(reporting: Reporting<'_>, row: &Row, diagnostics: &mut E) -> Result<(), Fault>
    ensures { TellsText (E.writer.written diagnostics.old) (E.writer.written diagnostics.new) }
{
    write_pieces(&[row.text.as_slice()], diagnostics)?;
    write_place(reporting, row.line, diagnostics)?;
    write_pieces(&[row.note.as_bytes(), b"\n"], diagnostics)
}

/// Writes two blanks, and the file and the line in it at which this line of all definitions stands, if there is one.
fn write_place<E: Sink>(
    reporting: Reporting<'_>,
    line: Option<usize>,
    diagnostics: &mut E,
) -> Result<(), Fault>
    ensures { TellsText (E.writer.written diagnostics.old) (E.writer.written diagnostics.new) }
{
    let Some(line) = line else {
        return Ok(());
    };
    let FileLine { name, line } = reporting.file_line(line);
    write_pieces(&[b"  ".as_slice()], diagnostics)?;
    write_name(name, diagnostics)?;
    let mut digits = Buffer::new();
    write_pieces(
        &[b":".as_slice(), digits.format(line).as_bytes()],
        diagnostics,
    )
}
