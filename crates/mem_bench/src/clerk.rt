ghost use Rattle.std.specs.Prelude.{◌≡◌};
ghost use Rattle.bench_model.specs.Bench.{next_count};
ghost use Rattle.bench_model.specs.Plans.{no_plan};
ghost use Rattle.mem_bench.specs.Parts.{HasStrike, IsStruckBy, faults_after};

use bench_model::{Call, Counts, Plan, Strike};

/// The plan of faults of a bench and its counts.
#[derive(Clone, Copy, Debug, PartialEq, Eq)]
pub struct Clerk {
    pub plan: Plan,
    pub counts: Counts,
}

impl Clerk {
    /// The empty plan, with nothing counted.
    pub fn new() -> Clerk
        ensures { result ≡ record {
          plan = no_plan;
          counts = record { moves = 0; looks = 0; flash_faults = 0; volume_faults = 0 };
        } }
    {
        Clerk {
            plan: Plan::empty(),
            counts: Counts {
                moves: 0,
                looks: 0,
                flash_faults: 0,
                volume_faults: 0,
            },
        }
    }

    /// Counts a move of the flash, and tells what strikes it.
    pub fn count_move(&mut self) -> Strike
        ensures value { IsStruckBy Call.Step result self.old.plan self.new.plan }
        ensures counts { self.new.counts ≡ record self.old.counts {
          moves = next_count self.old.counts.moves;
          flash_faults = faults_after result self.old.counts.flash_faults;
        } }
        ensures cause { HasStrike result self.old.counts.flash_faults self.new.counts.flash_faults }
    {
        self.counts.moves = self.counts.moves.saturating_add(1);
        self.count_flash(Call::Step)
    }

    /// Counts a look at the flash, and tells what strikes it.
    pub fn count_look(&mut self) -> Strike
        ensures value { IsStruckBy Call.Look result self.old.plan self.new.plan }
        ensures counts { self.new.counts ≡ record self.old.counts {
          looks = next_count self.old.counts.looks;
          flash_faults = faults_after result self.old.counts.flash_faults;
        } }
        ensures cause { HasStrike result self.old.counts.flash_faults self.new.counts.flash_faults }
    {
        self.counts.looks = self.counts.looks.saturating_add(1);
        self.count_flash(Call::Look)
    }

    /// Counts a look at the folder, and tells what strikes it.
    pub fn count_folder_look(&mut self) -> Strike
        ensures value { IsStruckBy Call.Look result self.old.plan self.new.plan }
        ensures counts { self.new.counts ≡ record self.old.counts {
          looks = next_count self.old.counts.looks;
          volume_faults = faults_after result self.old.counts.volume_faults;
        } }
        ensures cause { HasStrike result self.old.counts.volume_faults self.new.counts.volume_faults }
    {
        self.counts.looks = self.counts.looks.saturating_add(1);
        self.count_volume(Call::Look)
    }

    /// Counts a change of the folder, and tells what strikes it.
    pub fn count_folder_change(&mut self) -> Strike
        ensures value { IsStruckBy Call.Step result self.old.plan self.new.plan }
        ensures counts { self.new.counts ≡ record self.old.counts
            { volume_faults = faults_after result self.old.counts.volume_faults } }
        ensures cause { HasStrike result self.old.counts.volume_faults self.new.counts.volume_faults }
    {
        self.count_volume(Call::Step)
    }

    /// Lets the plan count a call of the flash, and counts its fault.
    fn count_flash(&mut self, call: Call) -> Strike
        ensures value { IsStruckBy call result self.old.plan self.new.plan }
        ensures counts { self.new.counts ≡ record self.old.counts
            { flash_faults = faults_after result self.old.counts.flash_faults } }
        ensures cause { HasStrike result self.old.counts.flash_faults self.new.counts.flash_faults }
    {
        let strike = self.plan.count(call);
        if strike.is_struck() {
            self.counts.flash_faults = self.counts.flash_faults.saturating_add(1);
        }
        strike
    }

    /// Lets the plan count a call of the volume, and counts its fault.
    fn count_volume(&mut self, call: Call) -> Strike
        ensures value { IsStruckBy call result self.old.plan self.new.plan }
        ensures counts { self.new.counts ≡ record self.old.counts
            { volume_faults = faults_after result self.old.counts.volume_faults } }
        ensures cause { HasStrike result self.old.counts.volume_faults self.new.counts.volume_faults }
    {
        let strike = self.plan.count(call);
        if strike.is_struck() {
            self.counts.volume_faults = self.counts.volume_faults.saturating_add(1);
        }
        strike
    }
}
