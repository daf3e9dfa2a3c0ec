// A script of calls: its text, its groups, and its lines, with the numbers and words of one and which numbers it can have; and the player of a script,
// for any program that says what its lines do.
#![tactic(auto)]

pub mod came;
pub mod cells;
pub mod groups;
pub mod list;
pub mod numbers;
pub mod shapes;
pub mod stage;
pub mod text;
pub mod words;
