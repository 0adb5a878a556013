//! What holds of the reference machine, whatever is delivered, whatever fails, and whatever the
//! formats say. Each law is the contract of a function that does nothing.

ghost use Rattle.std.specs.Prelude.{◌≡◌, ◌<◌, ◌≤◌, ◌+◌, ◌^◌, ◌↔◌, ℕ, List, [], ◌∷◌, ◌++◌, find};
ghost use Rattle.std.specs.Prelude.{length};
ghost use Rattle.std.specs.Prelude.{map, None, Some, true, false, if◌then◌else◌};
ghost use Rattle.bench_model.specs.Boards.{BoardValue, IsBoard};
ghost use Rattle.reference_machine.specs.Boots.{BootTask, boot_at, boot_of};
ghost use Rattle.reference_machine.specs.Boots.BootBatch.{Does, Settles};
ghost use Rattle.reference_machine.specs.Boots.BootTask.{Commits};
ghost use Rattle.reference_machine.specs.Deliveries.{BootUnit};
ghost use Rattle.reference_machine.specs.Events.{InputBytes, IsIn, Run, Step, cut_machines};
ghost use Rattle.reference_machine.specs.Events.{is_memory_full, trace_of, machine_after};
ghost use Rattle.reference_machine.specs.Formats.{Formats, Parts};
ghost use Rattle.reference_machine.specs.Laws.{IsReached, IsPastMemory, Grows, OpenIsLast};
ghost use Rattle.reference_machine.specs.Laws.{AttemptsReachFloor, AreApart, StandInOrder};
ghost use Rattle.reference_machine.specs.Laws.{HaveDistinctKeys, SpentFilesHaveProgress};
ghost use Rattle.reference_machine.specs.Laws.{IsWithinLimits, SerialsAreGiven, KeepsLimits};
ghost use Rattle.reference_machine.specs.Laws.{IsDue, TellNoFault};
ghost use Rattle.reference_machine.specs.Machine.{Machine, fresh};
ghost use Rattle.reference_machine.specs.Moves.{closed_since, move_bound};
ghost use Rattle.reference_machine.specs.Report.{ReportValue};
ghost use Rattle.reference_machine.specs.Spent.{Element, is_open, floor_of, spent};
ghost use Rattle.reference_machine.specs.Stops.{Agrees, IsHeldEnd};
ghost use Rattle.reference_machine.specs.Stops.StopCause.{Volume};
ghost use Rattle.reference_machine.specs.TraceValues.{EntryValue};
ghost use Rattle.image_parts.specs.Admission.{is_admitted};
ghost use Rattle.reference_machine.specs.Verdicts.{refusal_with, capacity_of, keeps_dependencies};
ghost use Rattle.reference_machine.specs.declared.event.Event.{Event};
ghost use Rattle.reference_machine.specs.declared.unit.End.{End};
ghost use Rattle.reference_machine.specs.declared.unit.Kind.{Kind};

use crate::{
    MAX_CAPSULE_ITEMS, MAX_DELIVERY_CAPSULES, MAX_DELIVERY_UNITS, MAX_FILES, MAX_FOLDER_BYTES,
    MAX_MEMORY_BYTES, MAX_SEGMENTS, MAX_STAGED,
};

/// The floor in force of a device never falls along the list of spent units.
#[tactic(auto, using(crate::proofs::Floors::never_falls))]
pub fn floor_never_falls()
    ensures { (board : BoardValue) (before rest : List Element) (d : ℕ)
        → floor_of board before d ≤ floor_of board (before ++ rest) d }
{}

/// No attempt has a version below the floor in force where it stands.
pub fn attempts_reach_the_floor()
    ensures { (f : Formats) (board : BoardValue) (m : Machine) → IsReached f board m
        → AttemptsReachFloor m.board m.list }
{}

/// At most one spent unit is open, and it is the last.
pub fn the_last_alone_is_open()
    ensures { (f : Formats) (board : BoardValue) (m : Machine) → IsReached f board m
        → OpenIsLast m.list }
{}

/// Files have distinct names and distinct serials, and so have staged deliveries; no serial is
/// above the last one.
pub fn deliveries_are_apart()
    ensures { (f : Formats) (board : BoardValue) (m : Machine) → IsReached f board m → AreApart m }
{}

/// The units of one delivery stand in order, without gaps from 0, and no key stands twice.
pub fn units_stand_in_order()
    ensures order { (f : Formats) (board : BoardValue) (m : Machine) → IsReached f board m
        → StandInOrder m.list }
    ensures keys { (f : Formats) (board : BoardValue) (m : Machine) → IsReached f board m
        → HaveDistinctKeys m.list }
{}

/// A file of which units are spent has its progress stored.
pub fn spent_files_have_progress()
    ensures { (f : Formats) (board : BoardValue) (m : Machine) → IsReached f board m
        → SpentFilesHaveProgress m }
{}

/// Files, staged deliveries and the serials of stored progress are within their limits. The serials
/// of spent units and those of stored progress are at most the last ones, and a staged delivery has
/// no spent unit.
pub fn limits_are_kept()
    ensures limits { (f : Formats) (board : BoardValue) (m : Machine) → IsReached f board m
        → IsWithinLimits m }
    ensures serials { (f : Formats) (board : BoardValue) (m : Machine) → IsReached f board m
        → SerialsAreGiven m }
{}

/// A file has few spent units, where a delivery holds at most 8 capsules.
#[tactic(auto, using(crate::proofs::Few::spent_few))]
pub fn units_of_a_file_are_few()
    ensures { (f : Formats) (board : BoardValue) (m : Machine) → KeepsLimits f → IsBoard board
        → IsReached f board m → (serial : ℕ) → spent m.list serial ≤ MAX_DELIVERY_UNITS }
{}

/// A boot comes to the units of a file in their order, and to each of them with nothing open. What
/// it settles is the open element, of which the same holds.
pub fn a_boot_comes_to_units_in_order()
    ensures unit { (f : Formats) (board : BoardValue) (m : Machine) → KeepsLimits f → IsBoard board
        → IsReached f board m → (h : End) (j : ℕ) (u : BootUnit) (rest : List BootTask) →
        IsHeldEnd h → (boot_at f m h j).left ≡ Commits (Does u) ∷ rest →
        (find is_open (boot_at f m h j).machine.list ≡ None)
        × IsDue (boot_at f m h j).machine u.key }
    ensures settlement { (f : Formats) (board : BoardValue) (m : Machine) → KeepsLimits f →
        IsBoard board → IsReached f board m → (h : End) (j : ℕ) (kind : Kind) (end : End)
        (rest : List BootTask) → IsHeldEnd h →
        (boot_at f m h j).left ≡ Commits (Settles kind end) ∷ rest →
        (e : Element) × (find is_open (boot_at f m h j).machine.list ≡ Some e)
        × IsDue (boot_at f m h j).machine e.key }
{}

/// A boot has fewer than 2^20 steps, finished or stopped, where a delivery holds at most 8
/// capsules.
pub fn a_boot_is_short()
    ensures { (f : Formats) (board : BoardValue) (m : Machine) → KeepsLimits f → IsBoard board
        → IsReached f board m →
        (h : End) (j : ℕ) → (boot_at f m h j).report.steps < 2 ^ 20 }
{}

/// Events that tell no fault tell one trace and leave one machine, and there is such a run of any
/// events.
pub fn without_faults_there_is_one_machine()
    ensures one { (f : Formats) (bytes_of : InputBytes) (board : BoardValue)
        (events : List Event) (told : List EntryValue) (m : Machine) →
        Run f bytes_of (fresh board) events told m → TellNoFault told →
        (told ≡ trace_of f bytes_of (fresh board) events)
        × (m ≡ machine_after f bytes_of (fresh board) events) }
    ensures some { (f : Formats) (bytes_of : InputBytes) (board : BoardValue)
        (events : List Event) →
        Run f bytes_of (fresh board) events (trace_of f bytes_of (fresh board) events)
        (machine_after f bytes_of (fresh board) events) }
{}

/// The list of spent units only grows, but for its last element closing: by each event, and by the
/// steps of a boot.
pub fn the_list_only_grows()
    ensures events { (f : Formats) (bytes_of : InputBytes) (board : BoardValue) (m : Machine) →
        IsReached f board m → (event : Event) (entry : EntryValue) (new : Machine) →
        Step f bytes_of m event entry new → Grows m.list new.list }
    ensures boots { (f : Formats) (board : BoardValue) (m : Machine) → IsReached f board m →
        (h : End) (j : ℕ) → Grows m.list (boot_at f m h j).machine.list }
{}

/// The lines of a boot tell of the elements that it closed, in their order.
pub fn lines_tell_of_closed_units()
    ensures { (f : Formats) (board : BoardValue) (m : Machine) → IsReached f board m →
        (h : End) (j : ℕ) → IsHeldEnd h →
        map (λ l. l.key) (boot_at f m h j).report.lines
        ≡ map (λ e. e.key) (closed_since m.list (boot_at f m h j).machine.list) }
{}

/// The bound on the moves of a boot grows with its steps.
pub fn the_bound_on_moves_grows()
    ensures { (f : Formats) (board : BoardValue) (m : Machine) → IsReached f board m →
        (h : End) (j : ℕ) → IsHeldEnd h →
        move_bound f m (boot_at f m h j) ≤ move_bound f m (boot_at f m h (j + 1)) }
{}

/// Nothing is left of a whole boot.
#[tactic(auto, using(crate::proofs::Ending::boot_ends))]
pub fn a_whole_boot_is_done()
    ensures { (f : Formats) (m : Machine) (h : End) → (boot_of f m h).left ≡ [] }
{}

/// No boot is stopped by the volume before its heal: where an element is open, a report that agrees
/// then tells a step.
#[tactic(auto, using(crate::proofs::Reading::healed_before))]
pub fn the_heal_stands_before_the_volume()
    ensures { (f : Formats) (m : Machine) (h : End) (r : ReportValue) (new : Machine)
        (e : Element) →
        find is_open m.list ≡ Some e → Agrees f m h r Volume new → 0 < r.steps }
{}

/// The machines of an event that is cut off are reached.
pub fn cut_events_leave_reached_machines()
    ensures { (f : Formats) (bytes_of : InputBytes) (board : BoardValue) (m : Machine) →
        IsReached f board m → (event : Event) (new : Machine) →
        IsIn new (cut_machines f bytes_of m event) → IsReached f board new }
{}

/// The limits of a platform, in numbers.
pub fn the_limits_are_these()
    ensures files { MAX_FILES ≡ 64 }
    ensures folder { MAX_FOLDER_BYTES ≡ 2147483648 }
    ensures staged { MAX_STAGED ≡ 8 }
    ensures segments { MAX_SEGMENTS ≡ 256 }
    ensures memory { MAX_MEMORY_BYTES ≡ 134217728 }
    ensures capsules { MAX_DELIVERY_CAPSULES ≡ 8 }
    ensures items { MAX_CAPSULE_ITEMS ≡ 16 }
    ensures units { MAX_DELIVERY_UNITS ≡ 2048 }
{}

/// Memory is full exactly where no more segments may be laid, or not so many bytes.
#[tactic(auto, using(crate::proofs::Reading::memory_full))]
pub fn memory_is_full_past_its_limits()
    ensures { (m : Machine) (bytes : List ℕ)
        → is_memory_full m bytes ≡ true ↔ IsPastMemory m bytes }
{}

/// The checks of a try stand in this order, each refusing with its LastAttemptStatus (UEFI 2.10,
/// 23.4).
pub fn the_checks_stand_in_order()
    ensures format { (f : Formats) (m : Machine) (u : BootUnit) → refusal_with f m u None ≡ Some 4 }
    ensures admission { (f : Formats) (m : Machine) (u : BootUnit) (p : Parts) →
        is_admitted m.board.digests u.image ≡ false → refusal_with f m u (Some p) ≡ Some 5 }
    ensures capacity { (f : Formats) (m : Machine) (u : BootUnit) (p : Parts) →
        is_admitted m.board.digests u.image ≡ true → capacity_of m.board u.key.device < length p.payload →
        refusal_with f m u (Some p) ≡ Some 2 }
    ensures version { (f : Formats) (m : Machine) (u : BootUnit) (p : Parts) →
        is_admitted m.board.digests u.image ≡ true → length p.payload ≤ capacity_of m.board u.key.device →
        p.version < floor_of m.board m.list u.key.device → refusal_with f m u (Some p) ≡ Some 3 }
    ensures dependencies { (f : Formats) (m : Machine) (u : BootUnit) (p : Parts) →
        is_admitted m.board.digests u.image ≡ true → length p.payload ≤ capacity_of m.board u.key.device →
        floor_of m.board m.list u.key.device ≤ p.version → refusal_with f m u (Some p) ≡
        (if keeps_dependencies f m u.key.device p then None else Some 8) }
{}
