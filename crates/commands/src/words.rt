ghost use Rattle.std.specs.Prelude.{◌≡◌, map, take};
ghost use Rattle.swf_text.specs.Line.{fields};

use arrayvec::ArrayVec;
use swf_text::next_word;

/// Capacity for a command, the eighteen words of an `insert`, and one word too many.
const WORD_CAPACITY: usize = 20;

/// The first words of a line.
pub(crate) type Words<'a> = ArrayVec<&'a [u8], WORD_CAPACITY>;

pub(crate) fn words_of(bytes: &[u8]) -> Words<'_>
    ensures { map (λ w. w.now) result.items ≡ take 20 (fields bytes.now) }
{
    let mut words = Words::new();
    let mut rest = bytes;
    while !words.is_full() {
        let (word, after) = next_word(rest);
        if word.is_empty() {
            return words;
        }
        words.push(word);
        rest = after;
    }
    words
}
