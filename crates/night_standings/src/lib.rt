//! The standings of a tournament: points, tie-breaks and places, as FIDE's Handbook has them (C.07).
//!
//! Modules: `breaks` has points and the tie-breaks that are sums over rounds, `direct` what tied players scored against
//! each other, `places` who is before whom, `ranked` the report with these ranks; `texts` makes rows of CSV of it, and
//! `json` what the lobby serves; `asked` has what is asked, `teams` does that of teams, and `word` does the words.
#![tactic(auto)]

mod asked;
mod breaks;
mod direct;
mod json;
mod places;
mod ranked;
mod teams;
mod texts;
mod word;

pub use asked::{Form, Standing};
pub use breaks::{Criterion, System};
pub use places::{Ranking, Standings, standings_of};
pub use ranked::ranked_report;
pub use texts::criterion_of;
pub use word::write_standings;
