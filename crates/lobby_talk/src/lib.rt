//! The desk with what goes to it and what goes from it: messages of browsers and lines of the server as the desk takes
//! them, messages as browsers get them, the one connection to the server, and what is counted of these. Who changes
//! players' links is a trait.
//!
//! Modules: `talk` has the desk with what goes from it, `front` how a message begins that stands in front of what came
//! of a browser, `said` a browser's message as the desk takes it, `lines` the lines of the server, `made` the messages
//! as they go out, `kept` and `kept_answer` answers that were made, `under_way` the replay by which one more is, `link`
//! the connection to the server, `pieces` one write, `links` who changes players' links, `roll` who is here and what
//! the log is told of that, `counts` what is counted beside that. `proofs/Each` has what is done to each of a list,
//! `proofs/Taking` lines one after another, `proofs/Others` who came.
#![tactic(auto)]

mod counts;
mod front;
mod kept;
mod kept_answer;
mod lines;
mod link;
mod links;
mod made;
mod pieces;
mod roll;
mod said;
mod talk;
mod under_way;

pub use counts::{
    ACTS, Asked, BOUNDS, Coming, Counts, NOTHING_ASKED, NOTHING_CAME, NOTHING_COUNTED, is_answer,
    is_refused_login,
};
pub use front::{has_act, has_brief, law_of_fronts, law_of_letters, may_be_act};
pub use kept_answer::KeptAnswer;
pub use link::Link;
pub use links::KeepsLinks;
pub use pieces::{Gone, PIECE_ROOM, write_piece};
pub use roll::Roll;
pub use said::say_to_desk;
pub use talk::Talk;
