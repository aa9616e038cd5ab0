// What is printed of a tape, lines or pages: what goes out with a record, and with blocks of records.
#![tactic(auto)]

pub mod lent;
pub mod printing;
pub mod stepping;
