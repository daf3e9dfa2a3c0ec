// What a call came to, told in the words of a line: the cells and bytes that were lent, a machine, boards, a record. Each is a type that `{}` shows.
#![tactic(auto)]

pub mod line;
pub mod seen;
