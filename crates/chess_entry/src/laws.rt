ghost use Rattle.chess_entry.specs.Lawful.{LawOfFollow};
ghost use Rattle.chess_entry.specs.Outcome.{LawOfTimes, LawOfEndings};
ghost use Rattle.chess_entry.specs.Snapshot.{LawOfMeaning, LawOfSnapshots};

/// The law that ties `follow` to the table of a whole list: an entry that is the verdict on some command leads from the
/// table of the entries before it to that of the list with it. It does nothing when it runs.
pub fn law_of_follow()
    ensures { LawOfFollow }
{}

/// The law that ties the repetition of a position to when two positions are the same (FIDE article 9.2.3): in a list of
/// valid positions, those with a position's key are those that are the same. It does nothing when it runs.
pub fn law_of_times()
    ensures { LawOfTimes }
{}

/// The law that ties the ending of a line to the articles of the FIDE Laws (5.1.1, 5.2.1, 5.2.2, 9.6.1 and 9.6.2, and
/// 6.9 for a fallen flag), as `chess_end` states them. It does nothing when it runs.
pub fn law_of_endings()
    ensures { LawOfEndings }
{}

/// The law that a content means one table at most: of a snapshot and the journal's records after it, two tables that
/// they mean under the same limits are one. It does nothing when it runs.
pub fn law_of_meaning()
    ensures { LawOfMeaning }
{}

/// The law that nothing is lost in a snapshot: the records of a table, with any entries after them that may come on it
/// and with which there are fewer than 2^64 in all, mean that table followed by these entries. It does nothing when it
/// runs.
pub fn law_of_snapshots()
    ensures { LawOfSnapshots }
{}
