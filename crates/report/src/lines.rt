// The report's lines: runs, totals and refusals.
ghost use Rattle.std.specs.Prelude.{◌≡◌, ◌+◌, ◌≤◌, length};
ghost use Rattle.refusal.specs.Refusal.{number_of, value_of};
ghost use Rattle.runs.specs.RunList.{runs_of};
ghost use Rattle.report.specs.Text.{run_line, run_lines, covered, total_line, refused_line, runs_report};
ghost use Rattle.report.specs.Writing.{Wrote};

use crate::text::Writer;
use refusal::Refusal;
use runs::listed::Runs;

// The millimetres of the runs.
fn covered_length(runs: Runs) -> u64
    ensures { result ≡ covered (runs_of runs.entry.list.now) }
{
    let list = runs.list;
    let mut sum: u64 = 0;
    for i in 0..list.count {
        sum += list.ends[i] - list.starts[i];
    }
    sum
}

impl<'a> Writer<'a> {
    fn run_line(&mut self, word: &[u8], start: u64, end: u64, level: u8)
        requires { self.old.at + length (run_line word.now start end level) ≤ length self.old.text.now }
        ensures { Wrote self.old (run_line word.now start end level) self.new }
    {
        self.line(word, &[start, end, level as u64]);
    }

    // A line for each run.
    fn run_lines(&mut self, word: &[u8], runs: Runs)
        requires { self.old.at + length (run_lines word.now (runs_of runs.list.now)) ≤ length self.old.text.now }
        ensures { Wrote self.old (run_lines word.now (runs_of runs.entry.list.now)) self.new }
    {
        let list = runs.list;
        for i in 0..list.count {
            self.run_line(word, list.starts[i], list.ends[i], list.levels[i]);
        }
    }

    fn total(&mut self, right: u64, left: u64)
        requires { self.old.at + length (total_line right left) ≤ length self.old.text.now }
        ensures { Wrote self.old (total_line right left) self.new }
    {
        self.line(b"total", &[right, left]);
    }

    // The whole report of the runs of both sides.
    pub fn runs(&mut self, right: Runs, left: Runs)
        requires { self.old.at + length (runs_report (runs_of right.list.now) (runs_of left.list.now)) ≤ length self.old.text.now }
        ensures { Wrote self.old (runs_report (runs_of right.entry.list.now) (runs_of left.entry.list.now)) self.new }
    {
        self.run_lines(b"R", right);
        self.run_lines(b"L", left);
        self.total(covered_length(right), covered_length(left));
    }

    // The whole report of a refusal.
    pub fn refused(&mut self, refusal: Refusal)
        requires { self.old.at + length (refused_line (number_of refusal) (value_of refusal)) ≤ length self.old.text.now }
        ensures { Wrote self.old (refused_line (number_of refusal) (value_of refusal)) self.new }
    {
        self.line(b"refused", &[refusal.number(), refusal.value()]);
    }
}
