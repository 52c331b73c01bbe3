// The words of a maximum, an own quota and an emergency raise in a record of the register, and back.
#![tactic(auto)]

ghost use Rattle.std.specs.Prelude.{◌≡◌};
ghost use Rattle.register.specs.Layout.{limit_of, limit_word, emergency_of, holder_word, figure_word};

use rules::money::Millions;
use rules::quotas::Emergency;

// A maximum or an own quota from its word.
pub fn limit_of(word: u64) -> Option<Millions>
    ensures { result ≡ limit_of word }
{
    (word <= 9_999_999).then_some(Millions(word))
}

pub fn limit_word(limit: Option<Millions>) -> u64
    ensures { result ≡ limit_word limit }
{
    limit.map_or(10_000_000, |quota| quota.0)
}

// An emergency raise from the words of its holder and its figure.
pub fn emergency_of(holder: u64, figure: u64) -> Emergency
    ensures { result ≡ emergency_of holder figure }
{
    let figure = Millions(figure);
    match holder {
        0..=99_999 => Emergency::Held {
            declarer: holder,
            figure,
        },
        100_000..=199_999 => Emergency::Filed {
            declarer: holder - 100_000,
            figure,
        },
        _ => Emergency::Nobody,
    }
}

pub fn holder_word(emergency: Emergency) -> u64
    ensures { result ≡ holder_word emergency }
{
    match emergency {
        Emergency::Held { declarer, .. } => declarer,
        Emergency::Filed { declarer, .. } if declarer <= 99_999 => declarer + 100_000,
        _ => 200_000,
    }
}

pub fn figure_word(emergency: Emergency) -> u64
    ensures { result ≡ figure_word emergency }
{
    match emergency {
        Emergency::Nobody => 0,
        Emergency::Held { figure, .. } | Emergency::Filed { figure, .. } => figure.0,
    }
}
