//! What the definitions come to, image by image. Each law is the contract of a function that does
//! nothing.

ghost use Rattle.std.specs.Prelude.{◌⊎◌, ℕ, List};
ghost use Rattle.bench_model.specs.Bench.{AreImages, Contents};
ghost use Rattle.bench_model.specs.Boards.{BoardValue};
ghost use Rattle.cap_boot.specs.Begun.{IsOfAttempt};
ghost use Rattle.cap_boot.specs.Stands.{Setting, StandsForEither, StandsIn};
ghost use Rattle.cap_boot.specs.Tickets.{AreBegun};
ghost use Rattle.cu_base.specs.declared.ticket.Ticket.{Ticket};
ghost use Rattle.reference_machine.specs.Events.{IsIn};
ghost use Rattle.reference_machine.specs.Formats.{Formats};
ghost use Rattle.reference_machine.specs.Laws.{IsReached};
ghost use Rattle.reference_machine.specs.Machine.{Machine};

/// Each image of a bench that stands for two machines stands for one of them.
pub fn an_image_stands_for_one_of_two()
    ensures { (x : Setting) (s : Contents) (m n : Machine) → StandsForEither x s m n →
        (image : ℕ → List ℕ) → AreImages s image → StandsIn x image s m ⊎ StandsIn x image s n }
{}

/// Each ticket that was begun on a device of a reached machine is that of an attempt there, of at
/// least the floor in force where it stands.
pub fn begun_tickets_are_of_attempts()
    ensures { (f : Formats) (board : BoardValue) (m : Machine) → IsReached f board m →
        (d : ℕ) (begun : List Ticket) → AreBegun m.board m.list d begun →
        (ticket : Ticket) → IsIn ticket begun → IsOfAttempt m d ticket }
{}
