// The reader of a listing: the crate `listing_reader` has its functions.
use rules::refusals::Refusal;

// The checked text, a position in it, and what the check said: refused by 21 where the text is no listing; then no row is handed out.
#[derive(Clone, Copy)]
pub struct ListingReader<'a> {
    pub text: &'a [u8],
    pub at: usize,
    pub checked: Result<(), Refusal>,
}
