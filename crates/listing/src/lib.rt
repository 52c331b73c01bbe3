// The listing ("Lines and columns"): the rows of groups as a text, 108 bytes a row, written and read. What each function means is in specs/Text.antt,
// and the laws both ways in specs/Laws.antt. Here a row is written as a line; the crate `listing_row` reads one, `listing_text` and `listing_reader` a
// whole text. Every function that is open to outside is total.
#![tactic(auto)]

pub mod keys; // a row's code with its class
pub mod lines; // one row as a line, written
pub mod texts; // what stands at a place of a text
pub mod reader; // the checked text and a position
