// The runs of one level in a schedule, and how many millimetres of them lie below a station.
ghost use Rattle.std.specs.Prelude.{ℕ};
ghost use Rattle.runs.specs.RunList.{last_station};
ghost use Rattle.queries.specs.Sums.{Noted};

use runs::Stretch;

#[derive(Drop)]
pub struct LevelRuns {
    // Where each run starts, in millimetres.
    pub starts: [u64; 512],
    // How many millimetres the runs before each have; after the last, how many all have.
    pub sums: [u64; 512],
    pub count: usize,
    pub ghost noted: { Noted starts sums count last_station },
}

impl LevelRuns {
    ghost use Rattle.std.specs.Prelude.{◌≡◌, ◌≤◌, ◌<◌};
    ghost use Rattle.runs.specs.RunList.{most_runs};
    ghost use Rattle.queries.specs.Sums.{Passed, Halved};
    ghost use Rattle.queries.specs.Sums as Sums;

    // Notes a run after the others.
    pub fn note(&mut self, run: Stretch)
        requires long { run.start ≤ run.end }
        requires ends { run.end ≤ last_station }
        requires room { self.old.count < most_runs }
        requires after { Noted self.old.starts self.old.sums self.old.count run.start }
        ensures { Passed run run.level self.old.starts self.old.sums self.old.count self.new.starts self.new.sums self.new.count }
    {
        let count = self.count;
        self.starts[count] = run.start;
        self.sums[count + 1] = self.sums[count] + (run.end - run.start);
        self.count = count + 1;
    }

    // How many runs start before a station: a binary search by hand, because std's `partition_point` makes a call for 64 ranges 5 in 100
    // slower. It halves, so it is a `while`.
    fn starting_before(&self, station: u64) -> usize
        ensures { Halved self.now.starts self.now.count station result result }
    {
        let mut low: usize = 0;
        let mut high = self.count;
        while low < high {
            let middle = (low + high) / 2;
            if self.starts[middle] < station {
                low = middle + 1;
            } else {
                high = middle;
            }
        }
        low
    }

    // How many millimetres lie below a station: all of the runs that start before it, but that the last may reach beyond it.
    pub fn below(&self, station: u64) -> u64
        ensures { result ≡ Sums.below self.now.starts self.now.sums self.now.count station }
    {
        let runs = self.starting_before(station);
        if runs == 0 {
            return 0;
        }
        let last = runs - 1;
        let own = self.sums[runs] - self.sums[last];
        self.sums[last] + (station - self.starts[last]).min(own)
    }
}
