// 2026-01, "Our own ratio table": a file of ratios read. What the function means, for every text, is in ratiofile/specs/File.antt.
#![tactic(auto)]

ghost use Rattle.std.specs.Prelude.{◌≡◌, length};
ghost use Rattle.rules.specs.Loads.{read_as};
ghost use Rattle.ratiofile.specs.File.{line_bytes, formed_line, line_in, file_in};

use columns_read::plain_at;
use ratiofile::layout::{FILE_BYTES, LINE_BYTES};
use rules::loads::{RatioFile, RatioLine};

// "class, numerator and denominator .., in columns of 2, 4 and 4, line feed" (2026-01)
#[tactic(auto, using(crate::proofs::Answers::line_says_is))]
fn line_in(line: &[u8]) -> Option<RatioLine>
    requires { length line.now ≡ line_bytes }
    ensures { result ≡ formed_line (line_in line.now) }
{
    let numbers = RatioLine {
        class: plain_at(line, 0, 2)?,
        numerator: plain_at(line, 2, 4)?,
        denominator: plain_at(line, 6, 4)?,
    };
    if line[10] != b'\n' {
        return None;
    }
    Some(numbers)
}

// "The file is three lines": the nine numbers of a text that is formed, whatever they are. `rules` refuses numbers out of range and classes out of order.
// (2026-01)
#[tactic(auto, using(crate::proofs::Answers::file_long, crate::proofs::Answers::file_says_is))]
pub fn read_file(text: &[u8]) -> Option<RatioFile>
    ensures { read_as result ≡ file_in text.now }
{
    if text.len() != FILE_BYTES {
        return None;
    }
    Some(RatioFile {
        first: line_in(&text[..LINE_BYTES])?,
        second: line_in(&text[LINE_BYTES..2 * LINE_BYTES])?,
        third: line_in(&text[2 * LINE_BYTES..])?,
    })
}
