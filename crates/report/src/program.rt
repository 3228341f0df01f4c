// What the program `storecheck` prints: a store of at most 16 rows and columns, checked in buffers of its own.
ghost use Rattle.std.specs.Prelude.{◌≡◌, ◌≤◌, length};
ghost use Rattle.rectangle.specs.Answers.{answer_of};
ghost use Rattle.report.specs.Report.{ReportWritten};
ghost use Rattle.report.specs.Given.{checked_as, size_of};
ghost use Rattle.report.specs.Program.{program_checked, program_report};

use crate::check::Found;
use crate::{check, report};
use rectangle::answers::Refusal;
use storefile::opening;

// A check of a file in such buffers.
#[tactic(auto, using(crate::proofs::Printing::few, crate::proofs::Printing::room))]
fn checked(file: &[u8]) -> Result<Found, Refusal>
    ensures { checked_as result ≡ program_checked file.now }
{
    let sides = opening::open_within(16, file)?;
    let lines = sides.lines();
    let bytes = lines * 70;
    let row_bytes = sides.rows * 70;
    let column_bytes = sides.columns * 70;
    let mut out = [0u8; 17920];
    let mut marks = [0u8; 256];
    let mut row_out = [0u8; 1120];
    let mut column_out = [0u8; 1120];
    check::check_within(
        16,
        file,
        &mut out[..bytes],
        &mut marks[..lines],
        &mut row_out[..row_bytes],
        &mut column_out[..column_bytes],
    )
}

// The report on a file.
pub fn report_on(file: &[u8], text: &mut [u8]) -> Result<usize, Refusal>
    ensures inside { size_of result ≤ length text.old }
    ensures printed { ◌≡◌ {A = ReportWritten} (record { answer = answer_of result; size = size_of result; out = text.new })
        (program_report file.now text.old) }
{
    report::report(checked(file).into(), text)
}
