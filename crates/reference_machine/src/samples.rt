//! What the definitions say of a board of three devices, by hand from the specification. Each law
//! is the contract of a function that does nothing.

ghost use Rattle.std.specs.Prelude.{◌≡◌, ◌+◌, ◌^◌, ℕ, List, [], ◌∷◌, ◌++◌, map, codes, true, false};
ghost use Rattle.std.specs.Prelude.{Option, None, Some};
ghost use Rattle.reference_machine.specs.Deliveries.{targets};
ghost use Rattle.reference_machine.specs.Events.{flags_refusal};
ghost use Rattle.reference_machine.specs.Boots.{boot_of};
ghost use Rattle.reference_machine.specs.Moves.{look_bound, pieces_started, plain_moves};
ghost use Rattle.reference_machine.specs.Results.{attempt_status, efi_number_of, efi_status};
ghost use Rattle.reference_machine.specs.Results.{esrt_of, last_result, results_of, untried_number};
ghost use Rattle.reference_machine.specs.Samples.{three_devices, sample_heads, sample_list};
ghost use Rattle.reference_machine.specs.Samples.{passed_over, without_target, sample_esrt};
ghost use Rattle.reference_machine.specs.Samples.{units_told, key_of, result_told, healed};
ghost use Rattle.reference_machine.specs.Samples.{keeps_it, own_section_holds, kinds_after_reset};
ghost use Rattle.reference_machine.specs.Samples.{bounds_of, machine_with, moves_after_reset};
ghost use Rattle.reference_machine.specs.Samples.{one_claim, one_file, open_attempt};
ghost use Rattle.reference_machine.specs.Samples.{sample_formats};
ghost use Rattle.reference_machine.specs.Samples.{shown_files, shown_staged, ordered_pairs};
ghost use Rattle.reference_machine.specs.TraceValues.AnswerValue.{Invalid, Unsupported};
ghost use Rattle.reference_machine.specs.declared.unit.End.TheVariants.{Refused, Sealed, Kept};
ghost use Rattle.reference_machine.specs.declared.unit.End.TheVariants.{Lost};
ghost use Rattle.reference_machine.specs.declared.unit.Kind.TheVariants.{Try, Heal, Skip, NoTarget};
ghost use Rattle.reference_machine.specs.declared.unit.Kind.TheVariants.{Bad};

/// Which devices are targets of an item, and which units a delivery has.
pub fn sample_deliveries()
    ensures targets { map (λ h. targets h three_devices) sample_heads ≡
        (1 ∷ 2 ∷ []) ∷ (2 ∷ []) ∷ (2 ∷ []) ∷ (1 ∷ 2 ∷ []) ∷ [] ∷ [] ∷ [] }
    ensures units { units_told (Some (0 ∷ [])) ≡
        (Try, key_of 0 0 0 1) ∷ (Try, key_of 0 0 1 2) ∷ (NoTarget, key_of 0 1 2 255)
        ∷ (Skip, key_of 1 0 3 255) ∷ (Skip, key_of 2 0 4 255) ∷ (Skip, key_of 3 0 5 255) ∷ [] }
    ensures bad { (units_told (Some []) ≡ (Bad, key_of 0 0 0 255) ∷ [])
        × (units_told None ≡ (Bad, key_of 0 0 0 255) ∷ []) }
{}

/// What is shown of spent units: the table, the result variables, of which there are three, and the
/// status of each end.
pub fn sample_results()
    ensures esrt { esrt_of three_devices sample_list ≡ sample_esrt }
    ensures results { map result_told
        (results_of three_devices (sample_list ++ passed_over ∷ without_target ∷ [])) ≡
        (0, 2 ^ 63 + 3, None) ∷ (1, 2 ^ 63 + 3, Some [])
        ∷ (2, 2 ^ 63 + 21, Some (codes "sys")) ∷ [] }
    ensures last { (last_result three_devices (sample_list ++ passed_over ∷ []) ≡ Some 0)
        × (last_result three_devices [] ≡ None) }
    ensures statuses { map efi_number_of (0 ∷ 1 ∷ 2 ∷ 3 ∷ 4 ∷ 5 ∷ 8 ∷ [])
        ≡ 0 ∷ 21 ∷ 9 ∷ 25 ∷ 1 ∷ 26 ∷ 14 ∷ [] }
    ensures ends { map attempt_status (Sealed ∷ Kept ∷ Lost ∷ Refused 4 ∷ []) ≡ 0 ∷ 1 ∷ 1 ∷ 4 ∷ [] }
    ensures untried { map untried_number (Bad ∷ Skip ∷ NoTarget ∷ []) ≡ 1 ∷ 3 ∷ 3 ∷ [] }
    ensures efi { map (λ n. (efi_status n).code) (0 ∷ 1 ∷ []) ≡ 0 ∷ (2 ^ 63 + 1) ∷ [] }
{}

/// How a boot closes an attempt that it finds open, and which updates keep what installed images
/// ask for.
pub fn sample_boots()
    ensures heals { map healed (Sealed ∷ Kept ∷ Lost ∷ []) ≡
        ((Heal, 0, 8) ∷ []) ∷ ((Heal, 2 ^ 63 + 21, 7) ∷ []) ∷ ((Heal, 2 ^ 63 + 21, 0) ∷ []) ∷ [] }
    ensures broken { (keeps_it 8 1 8 ≡ false) × (keeps_it 8 1 7 ≡ true) × (keeps_it 8 2 9 ≡ true) }
    ensures unheld { keeps_it 7 1 8 ≡ true }
    ensures own { map own_section_holds ((2 ∷ 8 ∷ []) ∷ (2 ∷ 7 ∷ []) ∷ [] ∷ [])
        ≡ true ∷ false ∷ true ∷ [] }
{}

/// Staging: the flags of a capsule (PERSIST_ACROSS_RESET 0x10000, POPULATE_SYSTEM_TABLE 0x20000,
/// INITIATE_RESET 0x40000), and what a boot finds after each reset.
pub fn sample_staging()
    ensures flags { map flags_refusal
        (0x10000 ∷ 0x50000 ∷ 0x20000 ∷ 0x40000 ∷ 0x60000 ∷ 0 ∷ 0x30000 ∷ 0x70000 ∷ []) ≡
        None ∷ None ∷ Some Invalid ∷ Some Invalid ∷ Some Invalid ∷ Some Unsupported
        ∷ Some Unsupported ∷ Some Unsupported ∷ [] }
    ensures warm { kinds_after_reset false ≡ Try ∷ Try ∷ NoTarget ∷ Skip ∷ Skip ∷ Skip ∷ [] }
    ensures cold { kinds_after_reset true ≡ Bad ∷ [] }
{}

/// How many moves and looks a boot makes at most, and how many moves are made where nothing fails.
/// The boot over one file closes a unit with each of its first six steps; the heal is one step.
pub fn sample_moves()
    ensures pieces { map pieces_started (0 ∷ 1 ∷ 65536 ∷ 65537 ∷ 67108864 ∷ [])
        ≡ 0 ∷ 1 ∷ 1 ∷ 2 ∷ 1024 ∷ [] }
    ensures bounds { bounds_of one_file 9 ≡
        240 ∷ 304 ∷ 368 ∷ 432 ∷ 496 ∷ 560 ∷ 560 ∷ 560 ∷ 560 ∷ [] }
    ensures heal { bounds_of (machine_with (open_attempt ∷ [])) 3 ≡ 241 ∷ 241 ∷ 241 ∷ [] }
    ensures looks { look_bound one_file (boot_of sample_formats one_file Sealed).report ≡ 36864 }
    ensures plain { map moves_after_reset (false ∷ true ∷ []) ≡ 39 ∷ 19 ∷ [] }
    ensures claim { plain_moves one_claim ≡ 40 }
{}

/// What is shown of a folder and of staged deliveries, and that items that are equal in an order
/// stay as they stood.
pub fn sample_orders()
    ensures files { shown_files ≡ (codes "A.cap", 0) ∷ (codes "b.cap", 3) ∷ [] }
    ensures staged { shown_staged ≡ (1, 8192) ∷ (2, 4096) ∷ [] }
    ensures order { ordered_pairs ≡ (0, 8) ∷ (0, 6) ∷ (1, 7) ∷ (1, 9) ∷ [] }
{}
