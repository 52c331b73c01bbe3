// A call line read: a call, or malformed.
ghost use Rattle.std.specs.Prelude.{◌≡◌};
ghost use Rattle.callfile.specs.Lines.{read_line, formed_call};

use callfile::layout::LINE_BYTES;
use callfile::words::{Words, is_call};
use columns_read::plain_at;
use rules::calls::Call;
use rules::codes::call_of;

// "A call line is the code, 1 to 11, in 2 columns, four fields of 9, line feed; unused fields are 0. Any other line is malformed." The line is given
// without its line feed. (Lines and columns)
#[tactic(auto, using(callfile::proofs::Heard::said_is, callfile::proofs::Heard::line_long))]
pub fn read_line(line: &[u8]) -> Option<Call>
    ensures { result ≡ formed_call (read_line line.now) }
{
    if line.len() != LINE_BYTES {
        return None;
    }
    let w = Words {
        code: plain_at(line, 0, 2)?,
        fields: [
            plain_at(line, 2, 9)?,
            plain_at(line, 11, 9)?,
            plain_at(line, 20, 9)?,
            plain_at(line, 29, 9)?,
        ],
    };
    if !is_call(w) {
        return None;
    }
    let [a, b, c, d] = w.fields;
    Some(call_of(w.code, a, b, c, d))
}
