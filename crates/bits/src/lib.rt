// A set of numbers as bits, sixteen to a word: number i is in the set where bit i % 16 of word i / 16 is 1.
// Each function takes every slice and every number: behind the slice's end nothing is in the set, and nothing is changed.
#![tactic(auto)]

ghost use Rattle.std.specs.Prelude.{◌≡◌, eqb, cond};
ghost use Rattle.bits.specs.Bits.{bit_at, Made};

// So many bits has a word.
pub const WORD: usize = 16;

// Is i in the set?
pub fn get(words: &[u16], i: usize) -> bool
    ensures { result ≡ eqb (bit_at words.now i) 1 }
{
    let k = i / WORD;
    if words.len() <= k {
        return false;
    }
    let w = words[k];
    let b = i % WORD;
    (w >> b) % 2 == 1
}

// Puts i into the set if it shall be within, and else takes it out.
fn make(words: &mut [u16], i: usize, within: bool)
    ensures { Made words.old i (cond within 1 0) words.new }
{
    let k = i / WORD;
    if words.len() <= k {
        return;
    }
    if get(words, i) == within {
        return;
    }
    let b = i % WORD;
    if within {
        words[k] += 1 << b;
        return;
    }
    words[k] -= 1 << b;
}

// Puts i into the set.
pub fn put(words: &mut [u16], i: usize)
    ensures { Made words.old i 1 words.new }
{
    make(words, i, true);
}

// Takes i out of the set.
pub fn clear(words: &mut [u16], i: usize)
    ensures { Made words.old i 0 words.new }
{
    make(words, i, false);
}
