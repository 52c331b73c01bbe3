// What both programs do with their input and output: a text read into a lent buffer, and how a write that failed ends them.
#![tactic(auto)]

ghost use Rattle.std.specs.Prelude.{◌≡◌, ◌<◌, ◌≤◌, ℕ, length, take};
ghost use Rattle.std.specs.Io.KnownBytes.{Consumes, IsAtEnd};
ghost use Rattle.streams.specs.Ending.{ended, status_told};

use std::io;
use std::io::{ErrorKind, Read};
use std::process::ExitCode;

// The source's bytes, as many as there is room for. Answers how many: all that there is room for where a read failed, since what can't be read is no text.
// The clauses speak of a source whose bytes std knows: what it lost is a front of the text, and where fewer are told than there is room for, these are all
// that it had. A file's or a terminal's bytes no contract knows, nor what a read leaves in the room behind the bytes that it gave.
pub fn read_text<R: Read>(source: &mut R, text: &mut [u8]) -> usize
    ensures within { result ≤ length text.old }
    ensures bytes { result < length text.old → Consumes (R.remaining source.old) (R.remaining source.new) (take result text.new) }
    ensures front { (n : ℕ) × (n ≤ result) × Consumes (R.remaining source.old) (R.remaining source.new) (take n text.new) }
    ensures end { result < length text.old → IsAtEnd (R.remaining source.new) }
{
    let mut filled: usize = 0;
    // Kept (no plainer): it counts no index; each turn reads behind what came before.
    while filled < text.len() {
        match source.read(&mut text[filled..]) {
            Ok(0) => return filled,
            Ok(came) => filled += came,
            // Kept (no plainer): a failed read is a whole room of bytes, which no caller takes for the end; a Result would be made this number by each of them.
            Err(_) => return text.len(),
        }
    }
    filled
}

// That nobody reads on is said by the status alone: that of a filter which a broken pipe ended, 128 + SIGPIPE.
const BROKEN_PIPE: u8 = 141;

// How a program ends by what became of its writing.
pub fn exit_code(written: io::Result<()>) -> io::Result<ExitCode>
    ensures { status_told result ≡ ended written }
{
    match written {
        Err(e) if e.kind() == ErrorKind::BrokenPipe => Ok(ExitCode::from(BROKEN_PIPE)),
        Err(e) => Err(e),
        Ok(()) => Ok(ExitCode::SUCCESS),
    }
}
