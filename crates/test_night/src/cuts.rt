//! What a crash does to the bytes of a file that are not synced.
use night_files::Fate;

/// It cuts them off, leaves twenty of them, or zeros in the place of twenty, or leaves them all.
pub const CUTS: [&[Fate]; 4] = [
    &[],
    &[Fate::Kept; 20],
    &[Fate::Zeroed; 20],
    &[Fate::Kept; 100],
];
