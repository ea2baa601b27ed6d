// The report of a job: its run lines and totals, or its refusal, as text in lent memory.
#![tactic(auto)]

mod lines;
mod text;

ghost use Rattle.std.specs.Prelude.{◌≡◌, ◌+◌, ◌≤◌, OnOk, OnErr, IfErr, length};
ghost use Rattle.refusal.specs.Refusal.{number_of, value_of};
ghost use Rattle.report.specs.Text.{reported, refused_line};
ghost use Rattle.report.specs.Writing.{Wrote};
ghost use Rattle.report.specs.Printing.{most_text, printing, text_after};

use planning::side::side_runs;
use refusal::Refusal;
use runs::listed::Runs;
use text::Writer;

// The report of the runs of both sides. Where the job is refused nothing is written.
fn put_runs(writer: &mut Writer, job: &[u8]) -> Result<(), Refusal>
    requires { writer.old.at + most_text ≤ length writer.old.text.now }
    ensures ok { OnOk result (Wrote writer.old (reported job.now) writer.new) }
    ensures unchanged { OnErr result (writer.new ≡ writer.old) }
    ensures refused { IfErr result (λ r. reported job.now ≡ refused_line (number_of r) (value_of r)) }
{
    let right = side_runs(job, 0)?;
    let left = side_runs(job, 1)?;
    writer.runs(Runs { list: &right }, Runs { list: &left });
    Ok(())
}

// The report of a job: its runs, or its refusal.
fn put_report(writer: &mut Writer, job: &[u8])
    requires { writer.old.at + most_text ≤ length writer.old.text.now }
    ensures { Wrote writer.old (reported job.now) writer.new }
{
    match put_runs(writer, job) {
        Ok(()) => {}
        Err(refusal) => writer.refused(refusal),
    }
}

// Writes the report from the first byte of the memory on, and gives its length in bytes. None where the memory has fewer than 32,768 bytes, of which
// none is written then.
pub fn report(job: &[u8], text: &mut [u8]) -> Option<usize>
    ensures value { result ≡ printing job.now text.old }
    ensures text_after { text.new ≡ text_after job.now text.old }
{
    if text.len() < 32768 {
        return None;
    }
    let mut writer = Writer { text, at: 0 };
    put_report(&mut writer, job);
    Some(writer.at)
}
