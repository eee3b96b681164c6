//! What leaves a tournament: its report for FIDE and for pairing programs, TRF-16, and rows of CSV (RFC 4180) for
//! spreadsheets and databases, of which no cell is a formula.
//!
//! Modules: `columns` has the report, `room` whether it has room, and `cells` what stands in its rounds; `particulars`
//! has what is known of a player, `order` gives players their starting numbers, `teams` finds teams, and `matches` the
//! results of their matches; `records` reads rows of CSV, `csv_rows` puts them behind others, and `csv_cells` has the
//! texts of their cells.
#![tactic(auto)]

pub mod cells;
mod columns;
mod csv_cells;
mod csv_rows;
mod matches;
mod order;
mod particulars;
mod records;
mod room;
mod teams;

pub use cells::{Bye, Meeting, Opponent, Play, Score};
pub use columns::{Fault, Tournament, report};
pub use csv_cells::Cell;
pub use csv_rows::{push_header, push_row};
pub use matches::{
    all_board_points, all_matches, are_few, board_points, is_matched, matches_in, sides_of,
};
pub use order::{starting_order, title_place};
pub use particulars::Particulars;
pub use records::{cell, records_of};
pub use room::fault_in;
pub use teams::{Team, teams_of};
