// Pairs (key, value) in two columns of words that the host lends: a key found, a word taken out of a column with the order kept. Nothing of the paper.
// Blocks of sixteen keys are looked at whole, which the compiler does in few instructions, and only a block that has the key is walked.
#![tactic(auto)]

ghost use Rattle.std.specs.Prelude.{◌≡◌, ◌≤◌, eqb, length, position};
ghost use Rattle.std.specs.List.{list_any};
ghost use Rattle.pairs.specs.Pairs.{Lacks, removed_word};

use words::first_of;

// The first block that has the key.
fn block_of(blocks: &[[u32; 16]], key: u32) -> Option<usize>
    ensures { result ≡ position (λ block. list_any (λ word. eqb word key) block) blocks.now }
{
    blocks.iter().position(|block| block.contains(&key))
}

// Where the first block begins that has the key, or the words behind the last whole block.
fn skip(ws: &[u32], key: u32) -> usize
    ensures { (result ≤ length ws.now) × Lacks ws.now result key }
{
    let (blocks, _) = ws.as_chunks::<16>();
    16 * block_of(blocks, key).unwrap_or(blocks.len())
}

// The first word that is the key.
fn searched(ws: &[u32], key: u32) -> Option<usize>
    ensures { result ≡ position (eqb key) ws.now }
{
    let from = skip(ws, key);
    let later = first_of(&ws[from..], key)?;
    Some(from + later)
}

// The index of the first word that is the key.
pub fn place_of(ws: &[u32], key: u64) -> Option<usize>
    ensures { result ≡ position (eqb key) ws.now }
{
    searched(ws, u32::try_from(key).ok()?)
}

// Word k of a column's words in use taken out: the later ones moved down by one, the last left where it was too; nothing where there is no such word.
#[tactic(auto, using(crate::specs::Laws::removed_none, crate::specs::Laws::removed_paste))]
pub fn remove_word(ws: &mut [u32], k: usize)
    ensures { ws.new ≡ removed_word ws.old (length ws.old) k }
{
    if k < ws.len() {
        ws.copy_within(k + 1.., k);
    }
}
