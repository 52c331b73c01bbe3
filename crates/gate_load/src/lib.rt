// A load: the text of a file of ratios, read and loaded into a lent gate (2026-01). What a text says is in ratiofile/specs/File.antt, what a load answers
// and leaves in claim/specs/Step.antt: step_entry.
#![tactic(auto)]

ghost use Rattle.std.specs.Prelude.{◌≡◌};
ghost use Rattle.rules.specs.Numbers.{told};
ghost use Rattle.rules.specs.Orders.{shanghai};
ghost use Rattle.history.specs.Runs.{Loaded};
ghost use Rattle.claim.specs.Step.{memory, step_entry};
ghost use Rattle.ratiofile.specs.File.{file_in};

use gate_guard::guarded_load;
use ratiofile_reader::read_file;
use rules::refusals::Refusal;

// Kept (rule): three slices and no `gate::Gate`: C lends the book and the places of a load to be read alone (`const`).
// Refused by 1, 2 or 23, or the table is the one by which quotas follow from their bases.
#[tactic(auto, unfolding(claim::specs::Step::step_entry))]
pub fn load(register: &mut [u32], book: &[u64], places: &[u64], text: &[u8]) -> Result<u64, Refusal>
    ensures answer { told result ≡ (step_entry shanghai (memory register.old book.now places.now) (Loaded (file_in text.now))).answer }
    ensures after { memory register.new book.now places.now
        ≡ (step_entry shanghai (memory register.old book.now places.now) (Loaded (file_in text.now))).memory }
{
    guarded_load(register, book, places, read_file(text))
}
