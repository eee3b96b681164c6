/// Where a man that may go to the same square is looked for: on the board, or on the file or the rank of another man.
#[derive(Clone, Copy)]
pub enum Among {
    Board,
    File,
    Rank,
}

/// What a text tells of the square that a piece leaves (PGN Standard, section 8.2.3.4).
#[derive(Clone, Copy)]
pub enum Origin {
    Nothing,
    File,
    Rank,
    Square,
}

/// What a move threatens: nothing, check or mate (PGN Standard, section 8.2.3.5).
#[derive(Clone, Copy)]
pub enum Threat {
    Nothing,
    Check,
    Mate,
}
