// One row of a listing read from its line of 108 bytes. What a line says is in listing/specs/Text.antt.
#![tactic(auto)]

ghost use Rattle.std.specs.Prelude.{◌≡◌};
ghost use Rattle.listing.specs.Text.{read_line};

use columns::bytes::same_at;
use columns_read::{optional_at, plain_at, signed_at};
use listing::lines::ROW;
use rows::{Row, row_kept};
use rules::kinds::Money;
use rules::money::{Millions, Mils};

// The row that a line says, where it is that row's text and the row keeps its rules.
#[tactic(auto, using(crate::proofs::Said::row_long, crate::proofs::Said::row_endless, crate::proofs::Said::row_says_is))]
pub fn read_line(line: &[u8]) -> Option<Row>
    ensures { result ≡ read_line line.now }
{
    if line.len() != ROW {
        return None;
    }
    if !same_at(line, 107, b"\n") {
        return None;
    }
    let code = plain_at(line, 0, 5)?;
    let class = plain_at(line, 5, 2)?;
    let maximum = optional_at(line, 7, 8)?;
    let own = optional_at(line, 15, 8)?;
    let net = signed_at(line, 23, 21)?;
    let open = plain_at(line, 44, 21)?;
    let bought = plain_at(line, 65, 21)?;
    let sold = plain_at(line, 86, 21)?;
    let row = Row {
        code,
        class,
        maximum: maximum.map(Millions),
        own: own.map(Millions),
        money: Money {
            open: Mils(open),
            bought: Mils(bought),
            sold: Mils(sold),
        },
        below: net.below,
        net: Mils(net.size),
    };
    row_kept(row).then_some(row)
}
