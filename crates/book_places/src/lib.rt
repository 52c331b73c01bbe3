// An order's place: the group that it belongs to, its kind, its price, its open quantity.
#![tactic(auto)]

ghost use Rattle.std.specs.Prelude.{◌≡◌};
ghost use Rattle.rules.specs.Tests.{pick};
ghost use Rattle.book.specs.Layout.{is_number, place_base, place_at, put_place, put_open};

use book::layout::{AT_OPEN, PLACE_WORDS};
use book::places::Place;
use rules::limits::TOP_ORDER;
use rules::money::Mils;
use words::{store, word_or};

// What stands where there is no place.
const NO_PLACE: Place = Place {
    group: 0,
    kind: 0,
    price: Mils(0),
    open: 0,
};

// The first word of the place of order number k, 1 to 65,536; none for another number.
fn base_of(k: u64) -> Option<usize>
    ensures { result ≡ pick (is_number k) (Some (place_base k)) None }
{
    match k {
        1..=TOP_ORDER => Some(PLACE_WORDS * ((k - 1) as usize)),
        _ => None,
    }
}

// The place of order number k, 1 to 65,536; zeros where there is none.
#[tactic(auto, unfolding(book::specs::Layout::place_at))]
pub fn place_at(places: &[u64], k: u64) -> Place
    ensures { result ≡ place_at places.now k }
{
    let Some(base) = base_of(k) else {
        return NO_PLACE;
    };
    Place {
        group: word_or(places, base, 0),
        kind: word_or(places, base + 1, 0),
        price: Mils(word_or(places, base + 2, 0)),
        open: word_or(places, base + AT_OPEN, 0),
    }
}

// The place of order number k put; nothing where there is none.
#[tactic(auto, unfolding(book::specs::Layout::put_place))]
pub fn put_place(places: &mut [u64], k: u64, place: Place)
    ensures { places.new ≡ put_place places.old k place }
{
    if let Some(base) = base_of(k) {
        store(
            places,
            base,
            &[place.group, place.kind, place.price.0, place.open],
        );
    }
}

// The open quantity of order number k put, and nothing else of its place.
#[tactic(auto, unfolding(book::specs::Layout::put_open))]
pub fn put_open(places: &mut [u64], k: u64, quantity: u64)
    ensures { places.new ≡ put_open places.old k quantity }
{
    if let Some(base) = base_of(k) {
        store(places, base + AT_OPEN, &[quantity]);
    }
}
