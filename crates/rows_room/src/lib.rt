// The room left to a group, worked out of its row: own quota − net, in mils. What it means, and that a buy passes exactly where there is room, is in
// rows/specs/Room.antt.
#![tactic(auto)]

ghost use Rattle.std.specs.Prelude.{◌≡◌};
ghost use Rattle.rows.specs.Room.{room_under, room_of, room_told};

use rows::{Net, Row, difference};
use rules::limits::TOP_MONEY;
use rules::money::{Millions, Mils, mils_of};

// Own quota − net. A net above L, which no row that keeps its rules has, counts as L: no sum wraps.
#[tactic(auto, using(crate::proofs::Steps::quota_small), unfolding(rows::specs::Room::room_under))]
fn room_under(own: Millions, net: Net) -> Net
    ensures { result ≡ room_under own net.below net.size }
{
    let quota = mils_of(own);
    let held = net.size.0.min(TOP_MONEY);
    if net.below {
        Net {
            below: false,
            size: Mils(quota.0 + held),
        }
    } else {
        difference(quota.0, held)
    }
}

// The room of a row; none where no own quota is in force.
#[tactic(auto, unfolding(rows::specs::Room::room_of))]
pub fn room_of(row: Row) -> Option<Net>
    ensures { room_told result ≡ room_of row }
{
    let own = row.own?;
    let net = Net {
        below: row.below,
        size: row.net,
    };
    Some(room_under(own, net))
}
