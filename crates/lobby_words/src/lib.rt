//! What is said at the lobby: what a message asks for and what is done about it, what the answers of the server say,
//! and the players: whom a token shows, and how they are told.
//!
//! Modules: `words` tells what the first word of a message says, `planning` what is done about the message, `refusals`
//! what the lobby itself refuses, `naming` under which name a line goes. `coming` takes the server's answers line by
//! line, `answers` tells what they say by `server_answers`, and `listing` which games wait by them. `players` has a
//! player and who holds a token, `linked` who has a new one, `rows` how players are told, and `initials` what of their
//! full names where that is by initials.
#![tactic(auto)]

mod answers;
mod coming;
mod initials;
mod linked;
mod listing;
mod naming;
mod planning;
mod players;
mod refusals;
mod rows;
mod words;

pub use answers::{
    first_line, game_told, is_entered, is_over, is_shown, is_table_act, lone_player, tells_end,
};
pub use coming::Coming;
pub use initials::{NameForm, name_form, name_told};
pub use linked::Linked;
pub use listing::{
    Seat, Stage, ends_wait, is_list, is_stage, joins_game, opens_game, seat_of, seats_in,
};
pub use naming::{is_said, takes_name};
pub use planning::{
    Accord, Change, Identity, Newcomer, Order, Plan, Standing, asks_for_decision, asks_for_link,
    asks_for_player, order_of, plan_of, shows_token,
};
pub use players::{Player, holder_of, is_same_sum, is_token};
pub use refusals::Refusal;
pub use rows::{
    headed, is_among, known_name, login_line, player_by_name, player_rows, taken_line, who_text,
};
pub use words::{
    Call, Sort, actor, are_message_bytes, as_line, as_name, black_name, cut_word, full_said,
    is_decision, is_message, is_of_clocks, is_pair, is_play_word, line_said, number_named,
    number_or_0, pair_times, sort_of,
};
