// A row's code with its class, which no other row of a listing has ("code with class not repeated": Lines and columns): as a pair, and as the number of the
// digits of both, which is one word of 32 bits.
ghost use Rattle.std.specs.Prelude.{◌≡◌, min};
ghost use Rattle.listing.specs.Keys.{held_key, keys_differ, key_number, among};

use rows::Row;

#[derive(Clone, Copy, PartialEq, Eq)]
pub struct Key {
    pub code: u32,
    pub class: u32,
}

// Held to 32 bits: a row that keeps its rules has no code or class that is more (`code_held`, `class_held`).
impl From<Row> for Key {
    ghost from_gives = { λ row key. key ≡ held_key row };

    fn from(row: Row) -> Key {
        Key {
            code: u32::try_from(row.code).unwrap_or(u32::MAX),
            class: u32::try_from(row.class).unwrap_or(u32::MAX),
        }
    }
}

// Whether no key stands twice.
pub fn all_differ(keys: &[Key]) -> bool
    ensures { result ≡ keys_differ keys.now }
{
    let mut rest = keys;
    while let Some((key, others)) = rest.split_first() {
        if others.contains(key) {
            return false;
        }
        rest = others;
    }
    true
}

// Held to 32 bits, so that the keys of 64 rows take 256 bytes of the stack: a row that keeps its rules has none that is more (`key_held`).
pub fn key_of(row: Row) -> u32
    ensures { result ≡ min (key_number row) 4_294_967_295 }
{
    u32::try_from(row.code.saturating_mul(10).saturating_add(row.class)).unwrap_or(u32::MAX)
}

// Whether a key is one of these.
#[tactic(auto, unfolding(crate::specs::Keys::among))]
pub fn is_among(key: u32, keys: &[u32]) -> bool
    ensures { result ≡ among key keys.now }
{
    keys.contains(&key)
}

#[cfg(test)]
mod tests {
    use super::*;
    use rules::kinds::Money;
    use rules::money::Mils;

    fn key(code: u32, class: u32) -> Key {
        Key { code, class }
    }

    fn row(code: u64, class: u64) -> Row {
        let none = Money {
            open: Mils(0),
            bought: Mils(0),
            sold: Mils(0),
        };
        Row {
            code,
            class,
            maximum: None,
            own: None,
            money: none,
            below: false,
            net: Mils(0),
        }
    }

    // "code with class not repeated": the same code with another class is another row, and so is another code with the same class.
    #[test]
    fn keys_that_stand_twice(rt: HostRuntime) {
        assert!(rt; all_differ(&[]), "no key");
        assert!(rt; all_differ(&[key(1, 1)]), "one key");
        assert!(rt;
            all_differ(&[key(1, 1), key(1, 2), key(2, 1)]),
            "code or class differs"
        );
        assert!(rt; !all_differ(&[key(1, 1), key(1, 1)]), "side by side");
        assert!(rt;
            !all_differ(&[key(1, 1), key(1, 2), key(1, 1)]),
            "the first and the last"
        );
        assert!(rt;
            !all_differ(&[key(1, 1), key(1, 2), key(2, 1), key(1, 2)]),
            "one in the middle and the last"
        );
        assert!(rt;
            all_differ(&[key(1, 10), key(2, 0)]),
            "pairs that differ, of one number 20"
        );
    }

    // Both numbers of a row, each at most 2^32 - 1.
    #[test]
    fn keys_of_rows(rt: HostRuntime) {
        assert!(rt; Key::from(row(99_999, 4)) == key(99_999, 4), "as they are");
        assert!(rt;
            Key::from(row(4_294_967_295, 4_294_967_295)) == key(u32::MAX, u32::MAX),
            "the greatest of 32 bits"
        );
        assert!(rt;
            Key::from(row(4_294_967_296, 1)) == key(u32::MAX, 1),
            "a code above 32 bits"
        );
        assert!(rt;
            Key::from(row(1, u64::MAX)) == key(1, u32::MAX),
            "a class above 32 bits"
        );
    }
}
