//! Options that several words have.
use command_lines::{OptionText, OptionValue};

/// `--server A:P`, or the path of a socket in place of `A:P`, of a word that plays on a game server.
pub const SERVER: OptionText = OptionText {
    name: "server",
    value: OptionValue::Text("A:P"),
    help: "Where the game server listens: an address and a port, or with a / in it a socket's path",
    is_required: true,
};

/// `--players FILE`, of a word that cannot do without the players' file.
pub const PLAYERS: OptionText = OptionText {
    name: "players",
    value: OptionValue::Text("FILE"),
    help: "The players' file",
    is_required: true,
};

/// `--archive FILE`, of a word that cannot do without the archive.
pub const ARCHIVE: OptionText = OptionText {
    name: "archive",
    value: OptionValue::Text("FILE"),
    help: "The archive's file",
    is_required: true,
};

/// `--particulars FILE`, of a word that tells of players.
pub const PARTICULARS: OptionText = OptionText {
    name: "particulars",
    value: OptionValue::Text("FILE"),
    help: "The players' particulars, a CSV file: full name, title, rating, team and more",
    is_required: false,
};

/// `--initials`, of a word that tells of players.
pub const INITIALS: OptionText = OptionText {
    name: "initials",
    value: OptionValue::Nothing,
    help: "Tells the initials of players in place of their full names",
    is_required: false,
};
