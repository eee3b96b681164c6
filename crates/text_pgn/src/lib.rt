//! A game's PGN: what the server's says, and the archive's, with the values of tags and the clocks between the moves;
//! and what the lobby tells of positions: the legal moves of the side to move, and all positions of a game, from its
//! PGN, as the answer to `line G`.
//!
//! Modules: `tag_values` reads tags, `pgn_lines` tells tags from moves, `dates` judges a date. `heading` has the values
//! of the archive's tags, `tags` writes them, `moves` puts the clocks between the moves, `lines` writes tokens in
//! lines, `whole` joins the three; `players` writes other names of the players; `law` has the law. Of a game's
//! positions `game_words` finds the start and the words that name moves, `rows` writes the rows of an answer, `replay`
//! plays the words and writes the answer, a part at a time, and `answer` does that at once; `telling` has the line of
//! legal moves. For spectators `spectated` has what is told of a game besides its moves, `answer_rows` reads the rows
//! of an answer, `json` writes values of JSON, `json_tags` tags and who plays, `game_file` the texts. `proofs/Kept`
//! shows that the moves stay, `proofs/Fits` which tokens fit, `proofs/Played` that a game is one.
#![tactic(auto)]

mod answer;
mod answer_rows;
mod dates;
mod game_file;
mod game_words;
mod heading;
mod json;
mod json_tags;
mod law;
mod lines;
mod moves;
mod pgn_lines;
mod players;
mod replay;
mod rows;
mod spectated;
mod tag_values;
mod tags;
mod telling;
mod whole;

pub use answer::line_answer;
pub use dates::is_date;
pub use game_file::{game_json, games_json, replayed};
pub use heading::Heading;
pub use law::law_of_moves;
pub use pgn_lines::{is_move, is_tag, tokens_of};
pub use players::with_players;
pub use replay::{Part, Replay};
pub use spectated::{GameTold, Notices, PlayedGame, Spectated, Stand, running_side};
pub use tag_values::{is_behind, value_in, value_of, with_tag, without_escapes};
pub use telling::{moves_line, push_move};
pub use whole::{TextFault, archived};
