//! The words of the command line.
ghost use Rattle.std.specs.Prelude.{◌≡◌, ◌↔◌, ◌≤◌, IsTrue, MatchOption, ℕ, ◌∷◌, [], List, Option, Some, map, codes, length, string_bytes};
ghost use Rattle.emp_command.specs.Words.{IsPlain, Asks, IsFileWord, AreFileWords, IsNumber, HasSolveOptions, HasWorkOption, HasSaveOption};
ghost use Rattle.emp_command.specs.Requests.{word_of, key_text, verb_text, asked_of, AskedGives, SolveOptionsGive, SaveOptionGives, WorkOptionGives};
ghost use Rattle.emp_command.specs.declared.words.Key.{Key};
ghost use Rattle.emp_command.specs.declared.words.Verb.{Verb};

/// What is to be done.
#[derive(Clone, Copy, Debug, PartialEq, Eq)]
pub enum Verb {
    /// To decide what the two files state, and report it.
    Solve,
    /// To test a certificate of the two files.
    Check,
    /// To say the canonical texts of the two files.
    Print,
    /// To make a market, solve it and sum it up.
    Make,
    /// To test a certificate and store it anew in version 2.
    Migrate,
    /// To list the pieces of all equilibria.
    Pieces,
}

/// What the words ask for.
#[derive(Clone, Copy, Debug)]
pub struct Request<'a> {
    pub verb: Verb,
    /// The names of the files to be read, in order: the model, the annotation, and a certificate.
    pub files: &'a [String],
    /// The name of what is to be written, where something is.
    pub output: Option<&'a str>,
    /// How many units of work the search may take.
    pub work: u64,
    /// The seed of the market that is to be made.
    pub seed: u64,
    /// How many firms it is to have.
    pub firms: u64,
}

/// How many units of work a search may take where the words do not say it.
pub const DEFAULT_WORK: u64 = 1_000_000;

/// A word names a file where it is not empty and does not begin with `-`.
fn is_file_word(word: &str) -> bool
    ensures { IsTrue result ↔ IsFileWord word.now }
{
    match word.as_bytes().first() {
        Some(byte) => *byte != b'-',
        None => false,
    }
}

/// The number that a word of digits alone writes, where it is below 2^64.
fn number_of(word: &str) -> Option<u64>
    ensures { MatchOption result ((n : ℕ) → IsNumber word.now n → ⊥) (IsNumber word.now) }
{
    if word.as_bytes().first() == Some(&b'+') {
        return None;
    }
    word.parse::<u64>().ok()
}

/// The word, where it names a file.
fn file_word(word: &str) -> Option<&str>
    ensures { MatchOption result (IsFileWord word.now → ⊥) (λ w. (w.now ≡ word.now) × IsFileWord word.now) }
{
    if is_file_word(word) { Some(word) } else { None }
}

/// Whether each word names a file.
#[tactic(auto, using(crate::proofs::Wording::naming))]
fn are_file_words(words: &[String]) -> bool
    ensures { IsTrue result ↔ AreFileWords (map string_bytes words.now) }
{
    for word in words {
        if !is_file_word(word.as_str()) {
            return false;
        }
    }
    true
}

/// The name of an option.
#[derive(Clone, Copy, Debug, PartialEq, Eq)]
enum Key {
    Cert,
    Work,
    Save,
}

fn key_of(word: &str) -> Option<Key>
    ensures { MatchOption result ((k : Key) → word.now ≡ key_text k → ⊥) (λ k. word.now ≡ key_text k) }
{
    match word {
        "--cert" => Some(Key::Cert),
        "--work" => Some(Key::Work),
        "--save" => Some(Key::Save),
        _ => None,
    }
}

/// What one option of `solve` says.
#[tactic(auto, using(crate::proofs::Wording::wording))]
fn solve_option<'a>(key: Key, value: &'a str) -> Option<(Option<&'a str>, u64)>
    ensures { SolveOptionsGive (key_text key ∷ value.now ∷ []) result }
{
    match key {
        Key::Cert => match file_word(value) {
            Some(file) => Some((Some(file), DEFAULT_WORK)),
            None => None,
        },
        Key::Work => match number_of(value) {
            Some(work) => Some((None, work)),
            None => None,
        },
        Key::Save => None,
    }
}

/// What the two options of `solve` say, the file first.
#[tactic(auto, using(crate::proofs::Wording::wording))]
fn both_options<'a>(file: &'a str, work: &str) -> Option<(Option<&'a str>, u64)>
    ensures { MatchOption result ((n : ℕ) → IsFileWord file.now → IsNumber work.now n → ⊥) (λ p. (word_of p.0 ≡ Some file.now) × IsFileWord file.now × IsNumber work.now p.1) }
{
    match (file_word(file), number_of(work)) {
        (Some(file), Some(work)) => Some((Some(file), work)),
        _ => None,
    }
}

/// What one option of `solve` says, by its two words.
#[tactic(auto, using(crate::proofs::Wording::unkeyed))]
fn one_option<'a>(key: &str, value: &'a str) -> Option<(Option<&'a str>, u64)>
    ensures { SolveOptionsGive (key.now ∷ value.now ∷ []) result }
{
    match key_of(key) {
        Some(key) => solve_option(key, value),
        None => None,
    }
}

/// What the options of `solve` say where the first names the file.
#[tactic(auto, using(crate::proofs::Wording::ordering))]
fn file_first<'a>(file: &'a str, key: &str, work: &str) -> Option<(Option<&'a str>, u64)>
    ensures { SolveOptionsGive (codes "--cert" ∷ file.now ∷ key.now ∷ work.now ∷ []) result }
{
    match key_of(key) {
        Some(Key::Work) => both_options(file, work),
        Some(Key::Cert) => None,
        Some(Key::Save) => None,
        None => None,
    }
}

/// What the options of `solve` say where the first says how much work.
#[tactic(auto, using(crate::proofs::Wording::ordering))]
fn work_first<'a>(work: &str, key: &str, file: &'a str) -> Option<(Option<&'a str>, u64)>
    ensures { SolveOptionsGive (codes "--work" ∷ work.now ∷ key.now ∷ file.now ∷ []) result }
{
    match key_of(key) {
        Some(Key::Cert) => both_options(file, work),
        Some(Key::Work) => None,
        Some(Key::Save) => None,
        None => None,
    }
}

/// What two options of `solve` say, by their four words.
#[tactic(auto, using(crate::proofs::Wording::unkeyed))]
fn two_options<'a>(
    key: &str,
    value: &'a str,
    other: &str,
    last: &'a str,
) -> Option<(Option<&'a str>, u64)>
    ensures { SolveOptionsGive (key.now ∷ value.now ∷ other.now ∷ last.now ∷ []) result }
{
    match key_of(key) {
        Some(Key::Cert) => file_first(value, other, last),
        Some(Key::Work) => work_first(value, other, last),
        Some(Key::Save) => None,
        None => None,
    }
}

/// What is to be written, and how much work may be taken, by the options of `solve`.
fn solve_options(options: &[String]) -> Option<(Option<&str>, u64)>
    ensures { SolveOptionsGive (map string_bytes options.now) result }
{
    match options {
        [] => Some((None, DEFAULT_WORK)),
        [key, value] => one_option(key.as_str(), value.as_str()),
        [key, value, other, last] => two_options(
            key.as_str(),
            value.as_str(),
            other.as_str(),
            last.as_str(),
        ),
        _ => None,
    }
}

/// The name of what is to be written, by the options of `make`.
fn save_option(options: &[String]) -> Option<Option<&str>>
    ensures { SaveOptionGives (map string_bytes options.now) result }
{
    match options {
        [] => Some(None),
        [key, value] => saved(key.as_str(), value.as_str()),
        _ => None,
    }
}

/// What the option of `make` says, by its two words.
#[tactic(auto, using(crate::proofs::Wording::unkeyed))]
fn saved<'a>(key: &str, value: &'a str) -> Option<Option<&'a str>>
    ensures { SaveOptionGives (key.now ∷ value.now ∷ []) result }
{
    match key_of(key) {
        Some(Key::Save) => match file_word(value) {
            Some(file) => Some(Some(file)),
            None => None,
        },
        Some(Key::Cert) => None,
        Some(Key::Work) => None,
        None => None,
    }
}

/// How much work may be taken, by the options of `pieces`.
fn work_option(options: &[String]) -> Option<u64>
    ensures { WorkOptionGives (map string_bytes options.now) result }
{
    match options {
        [] => Some(DEFAULT_WORK),
        [key, value] => limited(key.as_str(), value.as_str()),
        _ => None,
    }
}

/// What the option of `pieces` says, by its two words.
#[tactic(auto, using(crate::proofs::Wording::unkeyed))]
fn limited(key: &str, value: &str) -> Option<u64>
    ensures { WorkOptionGives (key.now ∷ value.now ∷ []) result }
{
    match key_of(key) {
        Some(Key::Work) => match number_of(value) {
            Some(work) => Some(work),
            None => None,
        },
        Some(Key::Cert) => None,
        Some(Key::Save) => None,
        None => None,
    }
}

/// What `solve` and the words behind it ask.
fn asked_solve(words: &[String]) -> Option<Request<'_>>
    ensures { AskedGives (codes "solve") (map string_bytes words.now) result }
{
    let Some((files, options)) = words.split_at_checked(2) else {
        return None;
    };
    if !are_file_words(files) {
        return None;
    }
    match solve_options(options) {
        Some((output, work)) => Some(Request {
            verb: Verb::Solve,
            files,
            output,
            work,
            seed: 0,
            firms: 0,
        }),
        None => None,
    }
}

/// What `check` and the words behind it ask.
fn asked_check(words: &[String]) -> Option<Request<'_>>
    ensures { AskedGives (codes "check") (map string_bytes words.now) result }
{
    if words.len() != 3 {
        return None;
    }
    if !are_file_words(words) {
        return None;
    }
    Some(Request {
        verb: Verb::Check,
        files: words,
        output: None,
        work: DEFAULT_WORK,
        seed: 0,
        firms: 0,
    })
}

/// What `print` and the words behind it ask.
fn asked_print(words: &[String]) -> Option<Request<'_>>
    ensures { AskedGives (codes "print") (map string_bytes words.now) result }
{
    if words.len() != 2 {
        return None;
    }
    if !are_file_words(words) {
        return None;
    }
    Some(Request {
        verb: Verb::Print,
        files: words,
        output: None,
        work: DEFAULT_WORK,
        seed: 0,
        firms: 0,
    })
}

/// What `migrate` and the words behind it ask.
fn asked_migrate(words: &[String]) -> Option<Request<'_>>
    ensures { AskedGives (codes "migrate") (map string_bytes words.now) result }
{
    if words.len() != 4 {
        return None;
    }
    if !are_file_words(words) {
        return None;
    }
    Some(Request {
        verb: Verb::Migrate,
        files: &words[..3],
        output: Some(words[3].as_str()),
        work: DEFAULT_WORK,
        seed: 0,
        firms: 0,
    })
}

/// What `pieces` and the words behind it ask.
fn asked_pieces(words: &[String]) -> Option<Request<'_>>
    ensures { AskedGives (codes "pieces") (map string_bytes words.now) result }
{
    let Some((files, options)) = words.split_at_checked(2) else {
        return None;
    };
    if !are_file_words(files) {
        return None;
    }
    match work_option(options) {
        Some(work) => Some(Request {
            verb: Verb::Pieces,
            files,
            output: None,
            work,
            seed: 0,
            firms: 0,
        }),
        None => None,
    }
}

/// What `make` and the words behind it ask.
fn asked_make(words: &[String]) -> Option<Request<'_>>
    ensures { AskedGives (codes "make") (map string_bytes words.now) result }
{
    let Some((numbers, options)) = words.split_at_checked(2) else {
        return None;
    };
    let Some(seed) = number_of(numbers[0].as_str()) else {
        return None;
    };
    let Some(firms) = number_of(numbers[1].as_str()) else {
        return None;
    };
    match save_option(options) {
        Some(output) => Some(Request {
            verb: Verb::Make,
            files: &words[..0],
            output,
            work: DEFAULT_WORK,
            seed,
            firms,
        }),
        None => None,
    }
}

/// What the words ask for, and `None` exactly where they are not plain.
pub fn asked(words: &[String]) -> Option<Request<'_>>
    ensures { MatchOption result (IsPlain (map string_bytes words.now) → ⊥) (λ r. Asks (map string_bytes words.now) (asked_of r)) }
{
    let Some((verb, rest)) = words.split_first() else {
        return None;
    };
    match verb_of(verb.as_str()) {
        Some(verb) => asked_by(verb, rest),
        None => None,
    }
}

/// The verb that a word is.
fn verb_of(word: &str) -> Option<Verb>
    ensures { MatchOption result ((v : Verb) → word.now ≡ verb_text v → ⊥) (λ v. word.now ≡ verb_text v) }
{
    match word {
        "solve" => Some(Verb::Solve),
        "check" => Some(Verb::Check),
        "print" => Some(Verb::Print),
        "make" => Some(Verb::Make),
        "migrate" => Some(Verb::Migrate),
        "pieces" => Some(Verb::Pieces),
        _ => None,
    }
}

/// What a verb and the words behind it ask.
fn asked_by(verb: Verb, words: &[String]) -> Option<Request<'_>>
    ensures { AskedGives (verb_text verb) (map string_bytes words.now) result }
{
    match verb {
        Verb::Solve => asked_solve(words),
        Verb::Check => asked_check(words),
        Verb::Print => asked_print(words),
        Verb::Make => asked_make(words),
        Verb::Migrate => asked_migrate(words),
        Verb::Pieces => asked_pieces(words),
    }
}
