//! Laws of the definitions that the contracts cite.
ghost use Rattle.chess_store.specs.Laws.{LawOfBatches, LawOfBeginning, LawOfKept, LawOfRaising};

/// The law that the list without an entry is lawful and that its table is the empty one, with which lives may begin on
/// a device that a store was created on. It does nothing when it runs.
pub fn law_of_beginning()
    ensures { LawOfBeginning }
{}

/// The law that the entries of a batch which was answered on the table of a lawful list make it a longer lawful one,
/// whose table is the one after the batch: with it lives may begin on a device that a store served before. It does
/// nothing when it runs.
pub fn law_of_batches()
    ensures { LawOfBatches }
{}

/// The law that a list which is lawful under limits is lawful under greater ones, where its table is the same with
/// these: with it lives may begin on a device whose store was widened. It does nothing when it runs.
pub fn law_of_raising()
    ensures { LawOfRaising }
{}

/// The law that lives lose nothing that was kept: the entries at the end of lives begin with those at their start, and
/// so with all that were acknowledged in any life before. It does nothing when it runs.
pub fn law_of_kept()
    ensures { LawOfKept }
{}
