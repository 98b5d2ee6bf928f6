// A field compared with a word.
ghost use Rattle.std.specs.Prelude.{◌≡◌};
ghost use Rattle.text.specs.Scanner.Word.{word_start, word_step, word_accepts};

// A field compared with a word as its bytes come: `at` of them agree with the word's; `sound` while no byte differed.
#[derive(Clone, Copy)]
pub struct WordScan {
    pub at: usize,
    pub sound: bool,
}

impl WordScan {
    // Before the field's first byte.
    pub fn new() -> Self
        ensures { result ≡ word_start }
    {
        WordScan { at: 0, sound: true }
    }

    // After one byte more of the field.
    pub fn push(self, b: u8, word: &[u8]) -> Self
        ensures { result ≡ word_step word.now self b }
    {
        if self.at < word.len() && word[self.at] == b {
            WordScan {
                at: self.at + 1,
                ..self
            }
        } else {
            WordScan {
                sound: false,
                ..self
            }
        }
    }

    // Is the field, ended here, the word?
    pub fn accepts(self, word: &[u8]) -> bool
        ensures { result ≡ word_accepts word.now self }
    {
        self.at == word.len() && self.sound
    }
}
