//! What the definitions come to. Each law is the contract of a function that does nothing.

ghost use Rattle.std.specs.Prelude.{◌≡◌, true, false};
ghost use Rattle.bench_model.specs.Boards.{BoardValue, IsBoard};
ghost use Rattle.bench_model.specs.Factory.{first_contents};
ghost use Rattle.bench_play.specs.FirstBench.{HaveWidths};
ghost use Rattle.cap_boot.specs.Given.{setting};
ghost use Rattle.cap_boot.specs.Stands.{StandsForEither};
ghost use Rattle.cu_base.specs.declared.time.EfiTime.{EfiTime};
ghost use Rattle.fmp_slot.specs.Layout.{slot_of};
ghost use Rattle.reference_machine.specs.Machine.{fresh};

/// A bench that tells its contents, laid out for a board whose devices have one bank each, stands
/// for the fresh machine of the board, in every image.
pub fn a_laid_out_bench_is_fresh()
    ensures { (board : BoardValue) (now : EfiTime) → IsBoard board → HaveWidths board →
        board.two_banks ≡ false → StandsForEither (setting board now slot_of)
        (first_contents true board) (fresh board) (fresh board) }
{}
