// readlisting: a listing from standard input; for each row its code, class and the room left, or " 21" where the text is no listing. Which text is a
// listing and what a row's room is, is decided in `listing_text` and `rows_room`; here is only reading and writing.
#![tactic(auto)]

use listing_rooms::{MOST_ROOMS, write_rooms};
use std::io;
use std::io::Write;
use std::process::ExitCode;
use streams::{exit_code, read_text};

// One byte more than the longest listing, 64 rows of 108: an input that fills it is no listing, whatever follows.
const MOST_TEXT: usize = 6913;

fn main(rt: HostRuntime) -> io::Result<ExitCode> {
    let mut text = [0u8; MOST_TEXT];
    let mut out = [0u8; MOST_ROOMS];
    let n = read_text(&mut rt.stdin(), &mut text);
    let written = write_rooms(&text[..n], &mut out);
    exit_code(
        rt.stdout()
            .write_all(out.get(..written).unwrap_or_default()),
    )
}
