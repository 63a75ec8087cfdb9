// A tree file read, and its report or its written text put into a lent buffer.
#![tactic(auto)]

ghost use Rattle.std.specs.Prelude.{◌≡◌, length, IfErr};
ghost use Rattle.reader.specs.TreeFile.{read_tree};
ghost use Rattle.plan.specs.declared.PlanError.TheVariants.{File, Write};
ghost use Rattle.plan.specs.Plan.{Printing};
ghost use Rattle.plan.specs.Rewrite.{refusal_of, prints, ReportRefused, RewriteRefused, rewrite_of, rewrite_buffer};

use lines::{FileError, answer_line, answer_number};
use listing::report_text;
use reader::read_tree;
use writer::{WriteError, write_tree};

// Why no text is put: the file is refused, or its tree is not written.
#[derive(Clone, Copy, PartialEq, Eq)]
pub enum PlanError {
    File(FileError),
    Write(WriteError),
}

impl From<FileError> for PlanError {
    ghost from_gives = { λ e x. x ≡ File e };

    fn from(e: FileError) -> PlanError {
        PlanError::File(e)
    }
}

impl From<WriteError> for PlanError {
    ghost from_gives = { λ e x. x ≡ Write e };

    fn from(e: WriteError) -> PlanError {
        PlanError::Write(e)
    }
}

// The number of a refusal in document 01's table, or in document 02's.
pub fn refused_number(e: PlanError) -> u8
    ensures { result ≡ (refusal_of e).number }
{
    match e {
        PlanError::File(e) => answer_number(Err(e)),
        PlanError::Write(WriteError::Broken) => 11,
        PlanError::Write(WriteError::TooLong) => 2,
        PlanError::Write(WriteError::TooShort) => 13,
    }
}

// The line of a refusal; 0 where it has none.
pub fn refused_line(e: PlanError) -> u32
    ensures { result ≡ (refusal_of e).line }
{
    match e {
        PlanError::File(e) => answer_line(Err(e)),
        PlanError::Write(_) => 0,
    }
}

// Reads the tree in `input` and writes its report into `out`: how many bytes it has; a refusal leaves `out` as it was.
pub fn report(input: &[u8], out: &mut [u8; 65536]) -> Result<usize, PlanError>
    ensures error { IfErr result (ReportRefused (read_tree input.now)) }
    ensures text { Printing (read_tree input.now) out.old out.new (prints result).bytes (prints result).number (prints result).line }
{
    let read = read_tree(input);
    read.answer?;
    Ok(report_text(read.tree, out))
}

// Reads the tree in `input` and writes it back into `out`: how many bytes the text has; a refusal leaves `out` as it was.
pub fn rewrite(input: &[u8], out: &mut [u8]) -> Result<usize, PlanError>
    ensures error { IfErr result (RewriteRefused (read_tree input.now) (length out.old)) }
    ensures answer { prints result ≡ rewrite_of (read_tree input.now) (length out.old) }
    ensures bytes { out.new ≡ rewrite_buffer (read_tree input.now) out.old }
{
    let file = read_tree(input);
    file.answer?;
    Ok(write_tree(file.tree, out)?)
}
