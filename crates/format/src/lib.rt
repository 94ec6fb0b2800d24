// Parts of a line, each read at the start of what is left of it. What is read comes with what is left after it; a part that is not there is None.
#![tactic(auto)]

ghost use Rattle.std.specs.Prelude.{◌≡◌};
ghost use Rattle.format.specs.Readers.{fixed, number, before};
ghost use Rattle.format.specs.Seen.{passed, seen};

use word::{next_word, number_of};

// The bytes of `word`: what is left after them.
#[tactic(auto, using(crate::proofs::Fixed::passed_prefix))]
pub fn read_fixed<'a>(rest: &'a [u8], word: &[u8]) -> Option<&'a [u8]>
    ensures { passed result ≡ fixed word.now rest.now }
{
    rest.strip_prefix(word)
}

// A number of at most 7 digits.
#[tactic(auto, unfolding(crate::specs::Readers::number), using(text::proofs::Laws::up_to_le, text::proofs::Laws::part_from))]
pub fn read_number(rest: &[u8]) -> Option<(u64, &[u8])>
    ensures { seen result ≡ number rest.now }
{
    let word = next_word(rest);
    // this form and no `?`: SCOPE 17.7
    let Some(n) = number_of(word) else {
        return None;
    };
    Some((n, &rest[word.len()..]))
}

// The bytes of `word`, and then a number.
#[tactic(auto, unfolding(crate::specs::Readers::sequence, crate::specs::Readers::changed))]
pub fn read_number_after<'a>(rest: &'a [u8], word: &[u8]) -> Option<(u64, &'a [u8])>
    ensures { seen result ≡ before word.now number rest.now }
{
    read_number(read_fixed(rest, word)?)
}
