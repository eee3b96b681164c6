//! What stands in a text: its parts, as lines or words, a number in decimal digits, a string of JSON.
#![tactic(auto)]

mod cutting;
mod escaping;
mod law;
mod numbers;

pub use cutting::{before, behind, between_quotes, cut, parts, skip};
pub use escaping::{behind_string, push_escaped, unescaped};
pub use law::law_of_strings;
pub use numbers::{number_named, number_of_32_bits, push_number};
