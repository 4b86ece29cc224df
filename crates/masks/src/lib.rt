// Masks drawn from random words (02, U3). `specs/Drawing.antt` tells how.
#![tactic(auto)]

ghost use Rattle.std.specs.Prelude.{◌≡◌, [], ◌∷◌, ◌+◌, ◌%◌, ltb, length};
ghost use Rattle.refusal.specs.Chain.{answered};
ghost use Rattle.field.specs.Modulus.{prime};
ghost use Rattle.masks.specs.Drawing.{limit, kept, used, draw_outcome, masks_after};

use field::Modulus;
use refusal::Refusal;

// How many words there are.
const ALL_WORDS: u64 = 0x1_0000_0000;

// How many words are written at a time.
const PART: usize = 256;

// The largest word that is usable: the next one is the largest multiple of the prime that is at most 2^32.
#[tactic(auto, unfolding(crate::specs::Drawing::limit))]
fn last_usable(modulus: Modulus) -> u32
    ensures { result + 1 ≡ limit (prime modulus) }
{
    let q = field::prime_of(modulus) as u64;
    (ALL_WORDS / q * q - 1) as u32
}

// How many of the words are usable. The loop has no early end, so that several words can be compared at once; a filter's count
// would look for one usable word after another.
fn count_usable(modulus: Modulus, words: &[u32]) -> usize
    ensures { result ≡ length (kept (prime modulus) words.now) }
{
    let last = last_usable(modulus);
    let mut n = 0;
    for word in words {
        if *word <= last {
            n += 1;
        }
    }
    n
}

// How many words are used for so many elements: at least as many, and then as many more as were skipped among the last ones.
// Stays: the words are looked at in parts, each as long as the elements that are left to fill; no index is counted.
fn find_words(modulus: Modulus, words: &[u32], wanted: usize) -> Result<usize, Refusal>
    ensures { let usable = length (kept (prime modulus) words.now) in
        result ≡ answered ((ltb usable wanted, 27) ∷ []) (used (prime modulus) wanted words.now) }
{
    let mut end = 0;
    let mut left = wanted;
    while 0 < left {
        if words.len() - end < left {
            return Err(Refusal::Words);
        }
        let start = end;
        end += left;
        left -= count_usable(modulus, &words[start..end]);
    }
    Ok(end)
}

// The remainder of a word by the prime.
fn element_of(modulus: Modulus, word: u32) -> u32
    ensures { result ≡ word % prime modulus }
{
    field::reduce(modulus, word as u64)
}

// Writes the remainders of words that are all usable, so that several can be worked out at once.
// Stays: a part of the words and of the output; a struct of both would be made anew for each part.
fn put_all(modulus: Modulus, words: &[u32], out: &mut [u32])
    requires { (length (kept (prime modulus) words.now) ≡ length out.old) × (length words.now ≡ length out.old) }
    ensures { out.new ≡ kept (prime modulus) words.now }
{
    for (i, mask) in out.iter_mut().enumerate() {
        *mask = element_of(modulus, words[i]);
    }
}

// Writes the remainders of the usable words, one by one.
// Stays: the output's index goes on at usable words alone; a filter that is enumerated is no plainer.
fn put_usable(modulus: Modulus, words: &[u32], out: &mut [u32])
    requires { length (kept (prime modulus) words.now) ≡ length out.old }
    ensures { out.new ≡ kept (prime modulus) words.now }
{
    let last = last_usable(modulus);
    let mut n = 0;
    for &word in words {
        if word <= last {
            out[n] = element_of(modulus, word);
            n += 1;
        }
    }
}

// Writes the remainders of the usable words: all at once, where none is skipped.
fn put_part(modulus: Modulus, words: &[u32], out: &mut [u32])
    requires { length (kept (prime modulus) words.now) ≡ length out.old }
    ensures { out.new ≡ kept (prime modulus) words.now }
{
    if words.len() == out.len() {
        put_all(modulus, words, out);
    } else {
        put_usable(modulus, words, out);
    }
}

// Writes the remainders of the usable words, which are as many as the output has elements, some words at a time: few are skipped.
fn put_masks(modulus: Modulus, words: &[u32], out: &mut [u32])
    requires { length (kept (prime modulus) words.now) ≡ length out.old }
    ensures { out.new ≡ kept (prime modulus) words.now }
{
    let mut filled = 0;
    for part in words.chunks(PART) {
        let first = filled;
        filled += count_usable(modulus, part);
        put_part(modulus, part, &mut out[first..filled]);
    }
}

// Draws masks from random words, as many as the output has elements, and tells how many words were used.
pub fn draw_masks(modulus: u32, words: &[u32], out: &mut [u32]) -> Result<usize, Refusal>
    ensures outcome { result ≡ draw_outcome modulus words.now (length out.old) }
    ensures masks { out.new ≡ masks_after modulus words.now out.old }
{
    let named = Modulus::try_from(modulus)?;
    let count = find_words(named, words, out.len())?;
    put_masks(named, &words[..count], out);
    Ok(count)
}
