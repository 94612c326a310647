//! Words that are known by their letters.
ghost use Rattle.std.specs.Prelude.{◌≡◌, map};
ghost use Rattle.emp_lex.specs.Words.{of_words};

/// What stands beside the first of the words that the bytes are, or `other` where they are none of them.
#[tactic(auto, using(crate::proofs::WordLists::looking))]
pub fn of_words<T: Copy>(other: T, words: &[(&[u8], T)], bytes: &[u8]) -> T
    ensures { result ≡ of_words other (map (λ w. (w.0.now, w.1)) words.now) bytes.now }
{
    for (word, value) in words {
        if *word == bytes {
            return *value;
        }
    }
    other
}
