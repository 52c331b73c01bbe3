// The standing figures of one group: "The last figure of each declarer stands; at most eight declarers a group have a
// figure standing, and a withdrawn place is used again" (document 01, Quotas). Held by value, searched, replaced, summed.
#![tactic(auto)]

ghost use Rattle.std.specs.Prelude.{◌≡◌, ◌≤◌, ◌<◌, leb, length};
ghost use Rattle.rules.specs.Keyed.{find, is_there};
ghost use Rattle.rules.specs.Limits.{most_declarers};
ghost use Rattle.rules.specs.Money.{millions};
ghost use Rattle.rules.specs.Sums.{sum_over};
ghost use Rattle.figures.specs.Places.{closed_up};
ghost use Rattle.figures.specs.Figures.{standing_of, sum_of, held, place_there, no_figures, replaced_figures, added_figures, closed_figures, declared_figures, withdrawn_figures};

use figures::Figures;
use rules::limits::{MOST_DECLARERS, TOP_QUOTA};
use rules::money::Millions;
use words::first_of;

// No figure stands.
pub fn no_figures() -> Figures
    ensures { result ≡ no_figures }
{
    Figures {
        standing: 0,
        declarers: [0; 8],
        quotas: [Millions(0); 8],
    }
}

// How many figures stand.
#[tactic(auto, using(crate::proofs::Walk::standing_counted))]
pub fn count_of(figures: Figures) -> u64
    ensures { result ≡ length (standing_of figures) }
{
    figures.standing.min(MOST_DECLARERS)
}

// "at most eight declarers a group have a figure standing" (Quotas)
pub fn is_full(figures: Figures) -> bool
    ensures { result ≡ leb most_declarers (length (standing_of figures)) }
{
    MOST_DECLARERS <= count_of(figures)
}

// The place of a declarer's figure.
#[tactic(auto, using(crate::proofs::Walk::standing_most, crate::proofs::Walk::place_first))]
fn place_of(figures: Figures, declarer: u64) -> Option<usize>
    ensures { result ≡ place_there figures declarer }
{
    let searched = count_of(figures) as usize;
    first_of(&figures.declarers[..searched], declarer)
}

// The declarer has a figure standing.
pub fn stands(figures: Figures, declarer: u64) -> bool
    ensures { result ≡ is_there (find declarer (standing_of figures)) }
{
    place_of(figures, declarer).is_some()
}

// The sum of figures, each held to the range of quotas.
#[tactic(auto, using(crate::proofs::Walk::sum_over_on, crate::proofs::Walk::sum_over_end))]
fn sum_in(quotas: &[Millions]) -> u64
    requires { length quotas.now ≤ 8 }
    ensures { result ≡ sum_over held quotas.now }
{
    let mut sum: u64 = 0;
    for quota in quotas {
        sum += quota.0.min(TOP_QUOTA);
    }
    sum
}

// "the sum of standing figures" (Quotas)
#[tactic(auto, using(crate::proofs::Walk::standing_most, crate::proofs::Walk::sum_of_first))]
pub fn sum_of(figures: Figures) -> Millions
    ensures { result ≡ sum_of figures }
{
    let summed = count_of(figures) as usize;
    Millions(sum_in(&figures.quotas[..summed]))
}

// Kept (no plainer): `place < 8` in three private contracts: the search that gives a place proves it; a type would need a law, and be opened at each use.
// The figures with the quota at a place.
fn replaced(mut figures: Figures, place: usize, quota: Millions) -> Figures
    requires { place < 8 }
    ensures { result ≡ replaced_figures figures place quota }
{
    figures.quotas[place] = quota;
    figures
}

// The figures with one more.
fn added(mut figures: Figures, declarer: u64, quota: Millions) -> Figures
    requires { figures.standing < 8 }
    ensures { result ≡ added_figures figures declarer quota }
{
    let place = figures.standing as usize;
    figures.declarers[place] = declarer;
    figures.quotas[place] = quota;
    figures.standing += 1;
    figures
}

// "The last figure of each declarer stands": in the place of its former one, else after the others. A ninth is not taken. (Quotas)
#[tactic(auto, using(crate::proofs::Walk::place_stands, figures::specs::Laws::not_full), unfolding(figures::specs::Figures::declared_figures))]
pub fn declared(figures: Figures, declarer: u64, quota: Millions) -> Figures
    ensures { result ≡ declared_figures figures declarer quota }
{
    match place_of(figures, declarer) {
        Some(place) => replaced(figures, place, quota),
        None if is_full(figures) => figures,
        None => added(figures, declarer, quota),
    }
}

// The entries after a place moved down by one, and `none` in the last place.
#[tactic(auto, using(crate::proofs::Walk::closing_end))]
fn closed_up<T: Copy>(mut entries: [T; 8], place: usize, none: T) -> [T; 8]
    requires { place < 8 }
    ensures { result ≡ closed_up place none entries }
{
    entries.copy_within(place + 1.., place);
    entries[7] = none;
    entries
}

// The figures without that of a place.
fn closed(figures: Figures, place: usize) -> Figures
    requires { (place < 8) × (1 ≤ figures.standing) }
    ensures { result ≡ closed_figures figures place }
{
    Figures {
        standing: figures.standing - 1,
        declarers: closed_up(figures.declarers, place, 0),
        quotas: closed_up(figures.quotas, place, Millions(0)),
    }
}

// "and a withdrawn place is used again": the later figures move down, in their order. (Quotas)
#[tactic(auto, using(crate::proofs::Walk::place_stands), unfolding(figures::specs::Figures::withdrawn_figures))]
pub fn withdrawn(figures: Figures, declarer: u64) -> Figures
    ensures { result ≡ withdrawn_figures figures declarer }
{
    match place_of(figures, declarer) {
        Some(place) => closed(figures, place),
        None => figures,
    }
}
