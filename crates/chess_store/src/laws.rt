//! A law of the definitions that the contracts cite.
ghost use Rattle.chess_store.specs.Means.{LawOfImages};

/// The law that an image means one table at most. It does nothing when it runs.
pub fn law_of_images()
    ensures { LawOfImages }
{}
