//! What the definitions come to.

ghost use Rattle.std.specs.Prelude.{◌≡◌, ◌<◌, ◌^◌, ℕ, List, None, Option, Some, find, length};
ghost use Rattle.bench_model.specs.Boards.{BoardValue, IsBoard};
ghost use Rattle.cu_base.specs.declared.time.EfiTime.{EfiTime};
ghost use Rattle.dev_claims.specs.Batches.{clear_changes, has_serial, prune_changes};
ghost use Rattle.dev_claims.specs.Batches.{unstage_changes};
ghost use Rattle.dev_claims.specs.ClosedBy.{IsUntried, element_told, ids_of};
ghost use Rattle.dev_claims.specs.Next.{IsNext, MayEnd};
ghost use Rattle.dev_claims.specs.Steps.{cleared, pruned, unstaged};
ghost use Rattle.dev_claims.specs.Units.{claim_changes, close_changes, settle_changes};
ghost use Rattle.reference_machine.specs.Boots.{is_file, settled, with_claim, with_element};
ghost use Rattle.reference_machine.specs.Formats.{Formats};
ghost use Rattle.reference_machine.specs.Laws.{IsDue, IsReached, KeepsLimits};
ghost use Rattle.reference_machine.specs.Machine.{Machine, fresh};
ghost use Rattle.reference_machine.specs.Results.{line_of, state_of};
ghost use Rattle.reference_machine.specs.Spent.{Element, is_open};
ghost use Rattle.reference_machine.specs.Spent.Standing.{Closed, Open};
ghost use Rattle.reference_machine.specs.declared.unit.End.{End};
ghost use Rattle.stored_vars.specs.Records.{IsClaim, IsState};
ghost use Rattle.stored_vars.specs.Stands.{Holds, ProgressFits, Stores, claim_for};
ghost use Rattle.var_log.specs.Banks.{empty_store};
ghost use Rattle.var_log.specs.Changes.{Variables, after};

/// A store without variables is that of a board as it leaves the factory.
pub fn an_empty_store_is_fresh()
    ensures { (board : BoardValue) → Stores empty_store (fresh board) }
{}

/// The batch that takes a staged delivery out leaves the variables of the machine without it.
#[tactic(auto, using(crate::proofs::Unstaged::unstage_holds))]
pub fn unstaging_takes_one_out()
    ensures { (variables : Variables) (m : Machine) (serial : ℕ) → IsBoard m.board →
        Holds variables m →
        Holds (after variables (unstage_changes variables serial)) (unstaged m serial) }
{}

/// The batch that drops the progress of files that are gone leaves the variables of the machine
/// without it, where the serials are those of the files that are there.
#[tactic(auto, using(crate::proofs::DropLaws::prune_holds))]
pub fn pruning_drops_what_is_gone()
    ensures { (variables : Variables) (m : Machine) (serials : List ℕ) → IsBoard m.board →
        ProgressFits m → ((s : ℕ) → has_serial serials s ≡ is_file m.files s) →
        Holds variables m →
        Holds (after variables (prune_changes variables serials)) (pruned m) }
{}

/// The batch once the capsule files are taken leaves the variables of the machine in which they are
/// not asked for and no progress is stored.
#[tactic(auto, using(crate::proofs::DropLaws::clear_holds))]
pub fn clearing_drops_all_progress()
    ensures { (variables : Variables) (m : Machine) → IsBoard m.board → Holds variables m →
        Holds (after variables (clear_changes variables)) (cleared m) }
{}

/// In a reached machine the progress that is stored has its width, and a unit that is due is next,
/// where the numbers of its image, and the state of its device where it has one, have theirs. A boot
/// comes to due units alone (`a_boot_comes_to_units_in_order` of reference_machine).
pub fn due_units_are_next()
    ensures progress { (f : Formats) (board : BoardValue) (m : Machine) → KeepsLimits f →
        IsBoard board → IsReached f board m → ProgressFits m }
    ensures unit { (f : Formats) (board : BoardValue) (m : Machine) (e : Element) →
        KeepsLimits f → IsBoard board → IsReached f board m → IsDue m e.key →
        e.version < 2 ^ 32 → e.floor < 2 ^ 32 →
        (e.key.device < length m.board.devices → IsState (state_of m.board m.list e.key.device)) →
        IsNext m e }
{}

/// The batch of a claim leaves the variables of the machine with the claim, where no unit is open.
pub fn a_claim_opens_a_unit()
    ensures { (variables : Variables) (m : Machine) (e : Element) → IsNext m e →
        IsClaim e.key.device (claim_for e) → e.key.device < length m.board.devices →
        e.standing ≡ Open → find is_open m.list ≡ None → Holds variables m →
        Holds (after variables (claim_changes m.board variables (claim_for e))) (with_claim m e) }
{}

/// The batch of a settlement leaves the variables of the machine in which the open unit is closed.
pub fn a_settlement_closes_the_open_unit()
    ensures { (variables : Variables) (m : Machine) (e : Element) (end : End) → IsNext m e →
        find is_open m.list ≡ Some e → MayEnd m.board e (Some end) → Holds variables m →
        Holds (after variables (settle_changes m.board variables e end m.now)) (settled m end) }
{}

/// A unit that starts no SetImage is closed by what its line tells of it, with the GUIDs and the
/// index of its item.
#[tactic(auto, using(crate::proofs::Told::closed_as_told))]
pub fn units_are_closed_as_told()
    ensures { (board : BoardValue) (variables : Variables) (k : ℕ) (e : Element)
        (end : Option End) (at : EfiTime) → e.standing ≡ Closed end at → IsUntried end →
        close_changes board variables e ≡ close_changes board variables
        (element_told (line_of board e.kind k e) (ids_of e) at) }
{}

/// The batch that closes a unit without a claim leaves the variables of the machine with it.
pub fn a_unit_is_closed_without_a_claim()
    ensures { (variables : Variables) (m : Machine) (e : Element) (end : Option End)
        (at : EfiTime) → IsNext m e → e.standing ≡ Closed end at → MayEnd m.board e end →
        find is_open m.list ≡ None → Holds variables m →
        Holds (after variables (close_changes m.board variables e)) (with_element m e) }
{}
