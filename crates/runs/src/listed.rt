// Run lists, lent.
ghost use Rattle.std.specs.Prelude.{◌≡◌, true};
ghost use Rattle.runs.specs.RunList.{is_run_list, runs_of};

use super::RunList;

// A list whose first `count` entries are a run list.
#[derive(Clone, Copy)]
pub struct Runs<'a> {
    pub list: &'a RunList,
    pub ghost run_list: { is_run_list (runs_of list.now) ≡ true },
}
