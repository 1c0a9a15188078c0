// The pack sheet of request A1: its reader, the question whether a pack is in force, and its writer. A pack is found by its number and
// never by its place on the sheet.
#![tactic(auto)]

pub mod answer;
pub mod calls;
mod entries;
pub mod question;
pub mod sheet;
pub mod writer;
