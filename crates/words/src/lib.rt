// Runs of words in a memory that the host lends: a word read, a run of words stored. Nothing of the paper.
#![tactic(auto)]

ghost use Rattle.std.specs.Prelude.{◌≡◌, ◌≢◌, length, MatchOption, ◌<◌, min, get_or, position};
ghost use Rattle.words.specs.Words.{stored};

// Word k of a memory, `none` where there is none.
pub fn word_or<T: Copy>(ws: &[T], k: usize, none: T) -> T
    ensures { result ≡ get_or ws.now k none }
{
    ws.get(k).copied().unwrap_or(none)
}

// The index of the first word that is the key.
pub fn first_of<T: Copy + PartialEq>(ws: &[T], key: T) -> Option<usize>
    ensures { result ≡ position (T.eq key) ws.now }
{
    ws.iter().position(|word| key == *word)
}

// A memory as an array of N words; none where it is shorter or longer. (std's `as_array` promises more than proofs over thousands of words can read.)
pub fn whole<T, const N: usize>(ws: &[T]) -> Option<&[T; N]>
    ensures { MatchOption result (length ws.now ≢ N) (λ all. (length ws.now ≡ N) × (all.now ≡ ws.now)) }
{
    ws.as_array()
}

// The words xs from word k of a memory on; nothing where they do not fit.
#[tactic(auto, unfolding(crate::specs::Words::splice))]
pub fn store<T: Copy>(ws: &mut [T], k: usize, xs: &[T])
    ensures { ws.new ≡ stored ws.old k xs.now }
{
    let n = xs.len();
    if ws.len() < n || ws.len() - n < k {
        return;
    }
    ws[k..k + n].copy_from_slice(xs);
}

// A number as a word of 32 bits, held to the greatest: a number in range is itself.
pub fn low(x: u64) -> u32
    ensures { result ≡ min x 4_294_967_295 }
{
    u32::try_from(x).unwrap_or(u32::MAX)
}
