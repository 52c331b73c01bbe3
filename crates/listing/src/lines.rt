// One row as a line of 108 bytes: written here, read in the crate `listing_row`.
ghost use Rattle.std.specs.Prelude.{◌≡◌, true, ◌+◌, ◌≤◌, length};
ghost use Rattle.std.proofs.Math.Seq.{paste};
ghost use Rattle.rows.specs.Row.{row_kept};
ghost use Rattle.listing.specs.Text.{limit_put, limits_put, row_text, row_put, row_bytes};

use columns::bytes::{holds, put_text};
use columns::reading::Signed;
use columns_write::written::{put_optional, put_plain, put_signed};
use rows::{Row, row_kept};
use rules::money::Millions;

// "code 5 columns, class 2, maximum 8, own quota 8, net 21, open buys 21, bought 21, sold 21, line feed" (Lines and columns)
pub const ROW: usize = 108;

// A maximum or an own quota into 8 columns, "-" for none.
fn put_limit(line: &mut [u8], at: usize, limit: Option<Millions>)
    ensures { line.new ≡ limit_put line.old at limit }
{
    put_optional(line, at, 8, limit.map(|quota| quota.0));
}

// The columns of a row that keeps its rules, so that each has room.
#[tactic(auto, using(crate::proofs::Lined::row_written))]
fn write_row(line: &mut [u8], row: Row)
    requires { (length line.old ≡ row_bytes) × (row_kept row ≡ true) }
    ensures { line.new ≡ row_text row }
{
    put_plain(line, 0, 5, row.code);
    put_plain(line, 5, 2, row.class);
    put_limit(line, 7, row.maximum);
    put_limit(line, 15, row.own);
    put_signed(
        line,
        23,
        21,
        Signed {
            below: row.below,
            size: row.net.0,
        },
    );
    put_plain(line, 44, 21, row.money.open.0);
    put_plain(line, 65, 21, row.money.bought.0);
    put_plain(line, 86, 21, row.money.sold.0);
    put_text(line, 107, b"\n");
}

// The row as a line from at on; nothing where it breaks its rules or has no room. It has no number to refuse by: `gate_listing::write` has refused such a
// row by 1 and such a buffer by 22 before the first row is put.
#[tactic(auto, using(columns::proofs::Methods::put_is), unfolding(crate::specs::Text::row_put))]
pub fn put_row(out: &mut [u8], at: usize, row: Row)
    ensures { out.new ≡ row_put out.old at row }
{
    if row_kept(row) && holds(out.len(), at, ROW) {
        write_row(&mut out[at..at + ROW], row);
    }
}
