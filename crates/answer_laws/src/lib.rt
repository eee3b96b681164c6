//! What the game server writes and what is read of it: each answer that `chess_answer` makes is read by
//! `server_answers` to the game's own fields; and an act that the lobby has sent is entered under the name that the
//! answers on its connection have shown.
#![tactic(auto)]

mod law;

pub use law::{
    law_of_acts_read, law_of_entered_names, law_of_heads_read, law_of_refusals_read,
    law_of_rows_read, law_of_shown_read,
};
