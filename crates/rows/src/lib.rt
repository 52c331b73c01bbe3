// The row of a group, as a listing has it: read from the lent memory, refused where there is none or where it would break its rules.
// Nothing is written. Net, which is signed, is handed out as sign and size.
#![tactic(auto)]

ghost use Rattle.std.specs.Prelude.{◌≡◌, true, ◌≤◌, ◌+◌};
ghost use Rattle.orders.specs.Booking.{money_fits};
ghost use Rattle.rules.specs.Numbers.{refusal_number};
ghost use Rattle.rows.specs.Row.{signed_net, class_kept, limits_kept, row_obeys, net_kept, row_kept, row_told, shown_row, row_refusal, row_at, row_of};
ghost use Rattle.rows.specs.Room.{difference as differenceOf};

use book_money::money_at;
use orders::host::sound;
use orders_booking::money_fits;
use quota::asks::{is_enrolled, own_in_force_of};
use register_groups::group_at;
use rules::kinds::Money;
use rules::limits::{BROKERAGE, TOP_CLASS, TOP_CODE, TOP_GROUP, TOP_QUOTA};
use rules::money::{Millions, Mils};
use rules::refusals::{Refusal, refuse};

// Kept (no plainer): the listing has the sign in a column, C in a word; `i64` holds no difference of any two u64, and both would take an `i128` apart.
// Net as sign and size: below 0, or not.
#[derive(Clone, Copy, PartialEq, Eq, Debug)]
pub struct Net {
    pub below: bool,
    pub size: Mils,
}

// Kept (no plainer): `below` and `net` as two fields and no `Net`: the laws of rows, listings and C's words speak of each of the two.
// The row of a group: its own quota is the one in force; net is the size, below 0 where `below`.
#[derive(Clone, Copy)]
pub struct Row {
    pub code: u64,
    pub class: u64,
    pub maximum: Option<Millions>,
    pub own: Option<Millions>,
    pub money: Money,
    pub below: bool,
    pub net: Mils,
}

// a − b as sign and size.
#[tactic(auto, unfolding(crate::specs::Room::difference))]
pub fn difference(a: u64, b: u64) -> Net
    ensures { result ≡ differenceOf a b }
{
    Net {
        below: a < b,
        size: Mils(a.abs_diff(b)),
    }
}

// Open + bought − sold, of money that fits.
#[tactic(auto, using(crate::proofs::Rowed::fits_known), unfolding(crate::specs::Row::signed_net, crate::specs::Room::difference))]
fn signed_net(money: Money) -> Net
    requires { money_fits money ≡ true }
    ensures { result ≡ signed_net money }
{
    difference(money.open.0 + money.bought.0, money.sold.0)
}

// Class 1, 3 or 4.
fn class_kept(class: u64) -> bool
    ensures { result ≡ class_kept class }
{
    (1..=TOP_CLASS).contains(&class) && class != BROKERAGE
}

// A maximum, 0 included (2026-01), and the own quota at most that, or neither.
fn limits_kept(maximum: Option<Millions>, own: Option<Millions>) -> bool
    ensures { result ≡ limits_kept maximum own }
{
    match (maximum, own) {
        (None, None) => true,
        (Some(m), Some(q)) => m.0 <= TOP_QUOTA && q <= m,
        _ => false,
    }
}

// Every rule of a row but that of its net.
#[tactic(auto, unfolding(crate::specs::Row::row_obeys))]
fn row_obeys(
    code: u64,
    class: u64,
    maximum: Option<Millions>,
    own: Option<Millions>,
    money: Money,
) -> bool
    ensures { result ≡ row_obeys code class maximum own money }
{
    code <= TOP_CODE && class_kept(class) && limits_kept(maximum, own) && money_fits(money)
}

// Net = open + bought − sold, of money that fits.
fn net_kept(row: Row) -> bool
    requires { money_fits row.money ≡ true }
    ensures { result ≡ net_kept row.below row.net.0 (signed_net row.money) }
{
    let due = signed_net(row.money);
    Net {
        below: row.below,
        size: row.net,
    } == due
}

// Whether a row keeps its rules.
#[tactic(auto, using(crate::proofs::Rowed::obeyed_fits), unfolding(crate::specs::Row::row_kept))]
pub fn row_kept(row: Row) -> bool
    ensures { result ≡ row_kept row }
{
    row_obeys(row.code, row.class, row.maximum, row.own, row.money) && net_kept(row)
}

// The row of these figures; refused by 1 where it would break its rules.
#[tactic(auto, using(crate::proofs::Rowed::obeyed_fits), unfolding(crate::specs::Row::shown_row))]
fn shown_row(
    code: u64,
    class: u64,
    maximum: Option<Millions>,
    own: Option<Millions>,
    money: Money,
) -> Result<Row, Refusal>
    ensures { row_told result ≡ shown_row code class maximum own money }
{
    refuse(
        !row_obeys(code, class, maximum, own, money),
        Refusal::Unsound,
    )?;
    let net = signed_net(money);
    Ok(Row {
        code,
        class,
        maximum,
        own,
        money,
        below: net.below,
        net: net.size,
    })
}

// The list: the host's memory, the group's number, its enrolment.
#[tactic(auto, unfolding(crate::specs::Row::row_refusal))]
fn refusal_of_row(register: &[u32], book: &[u64], places: &[u64], group: u64) -> Result<(), Refusal>
    ensures { refusal_number result ≡ row_refusal register.now book.now places.now group }
{
    sound(register, book, places)?;
    refuse(group > TOP_GROUP, Refusal::OutOfRange)?;
    refuse(!is_enrolled(register, group), Refusal::NotThere)
}

// The row that a group's words say, whether or not the rest of the memory is sound and the group enrolled: `row_of` and `gate_listing::write` have refused by
// 1, and by 2 and 6, before. A listing of 64 rows would check the memory 64 times otherwise.
#[tactic(auto, unfolding(crate::specs::Row::row_at))]
pub fn row_at(register: &[u32], book: &[u64], group: u64) -> Result<Row, Refusal>
    ensures { row_told result ≡ row_at register.now book.now group }
{
    let agreed = group_at(register, group as usize);
    let own = own_in_force_of(register, group);
    shown_row(
        agreed.code,
        agreed.class,
        agreed.quota.maximum,
        own,
        money_at(book, group),
    )
}

// The row of a group, by its number.
#[tactic(auto, unfolding(crate::specs::Row::row_of))]
pub fn row_of(register: &[u32], book: &[u64], places: &[u64], group: u64) -> Result<Row, Refusal>
    ensures { row_told result ≡ row_of register.now book.now places.now group }
{
    refusal_of_row(register, book, places, group)?;
    row_at(register, book, group)
}
