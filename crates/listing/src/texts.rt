// What stands at a place of a text. The crate `listing_text` reads it.
use rows::Row;

// What stands at a place of a text: a row, something else, or too few bytes for a row.
// Kept (no plainer): three answers by name; `Option<Result<Row, _>>` would say a broken line as an error with nothing in it, in the laws too.
#[derive(Clone, Copy)]
pub enum Step {
    Next(Row),
    Broken,
    End,
}
