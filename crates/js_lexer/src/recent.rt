// The words that were read last.
ghost use Rattle.std.specs.Prelude.{◌≡◌, IfOk};

use std::alloc::{AllocError, Global};
use utf16_text::{Memory, Text};

/// How many words are kept.
const PLACES: usize = 64;

/// Words that were read, each at its place. A script repeats few words, so the text of most can be shared.
#[derive(Drop)]
pub struct RecentWords {
    texts: Vec<Option<Text>>,
}

impl RecentWords {
    /// No words.
    pub fn new(alloc: Global) -> Result<RecentWords, AllocError> {
        let mut texts = Vec::new(alloc);
        texts.resize_with(PLACES, || None)?;
        Ok(RecentWords { texts })
    }

    /// The text of a word, which is shared where it was read a short while ago.
    pub fn text(&mut self, alloc: Global, word: &[u16]) -> Result<Text, Memory>
        ensures { IfOk result (λ text. text ≡ word.now) }
    {
        let Some(kept) = self.texts.get_mut(place_of(word)) else {
            return Text::from_units(alloc, word);
        };
        match kept {
            Some(text) if text.units() == word => text.copy(alloc),
            _ => {
                let text = Text::from_units(alloc, word)?;
                *kept = Some(text.copy(alloc)?);
                Ok(text)
            }
        }
    }
}

/// Where a word is kept, by its ends and its length.
fn place_of(word: &[u16]) -> usize {
    match word {
        [] => 0,
        [first, ..] => (usize::from(*first) + usize::from(word[word.len() - 1]) + word.len())
            % PLACES,
    }
}
