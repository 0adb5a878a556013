//! What each request makes of the variables of a platform.

ghost use Rattle.std.specs.Prelude.{ℕ, ◌-◌, ◌<◌, ◌≤◌, ◌^◌, length};
ghost use Rattle.std.specs.List.{AllByRecursion};
ghost use Rattle.bench_model.specs.Boards.{IsBoard};
ghost use Rattle.reference_machine.specs.Events.{signalled, with_staged};
ghost use Rattle.reference_machine.specs.Machine.{Machine};
ghost use Rattle.reference_machine.specs.declared.limits.TheConstants.{MAX_STAGED};
ghost use Rattle.stored_vars.specs.Stands.{Holds};
ghost use Rattle.update_inbox.specs.Batches.{signal_batch};
ghost use Rattle.update_inbox.specs.Staging.{stage_batch};
ghost use Rattle.var_log.specs.Changes.{Variables, after};

/// The batch of `signal` leaves the variables of the machine in which the capsule files are asked
/// for.
pub fn a_signal_asks_for_files()
    ensures { (variables : Variables) (m : Machine) → IsBoard m.board → Holds variables m →
        Holds (after variables (signal_batch variables)) (signalled m) }
{}

/// The batch that stages a delivery leaves the variables of the machine with it, where fewer than 8
/// wait and a serial is left.
pub fn a_delivery_is_staged()
    ensures { (variables : Variables) (m : Machine) (address : ℕ) → IsBoard m.board →
        length m.staged < MAX_STAGED → m.last_staged < 2 ^ 64 - 1 →
        AllByRecursion (λ p. p.serial ≤ m.last_staged) m.staged → address < 2 ^ 64 →
        Holds variables m →
        Holds (after variables (stage_batch address variables)) (with_staged m address) }
{}
