//! Words of the command line, and the options among them.

ghost use Rattle.std.specs.Prelude.{◌≡◌, ◌<◌, ◌||◌, length, map, find, nat_le, string_bytes};
ghost use Rattle.std.specs.List.{list_all, list_any};
ghost use Rattle.std.specs.Str.{bytes_eq};
ghost use Rattle.std.specs.Option.{option_map};
ghost use Rattle.muni_desk.specs.Words as spec;

/// The option of how many workers there are.
pub const WORKERS: &[u8] = b"--workers=";

/// The word by which sensitivities are asked for.
pub const RISK: &[u8] = b"--risk";

// The third letter of an option is looked at first. A quote may have many calls, and none of its other
// options has the third letter of a call.
const TELLING: usize = 4;

/// The word at a place.
pub fn word_at(words: &[String], place: usize) -> &[u8]
    requires { place < length words.now }
    ensures { result.now ≡ spec.word (map string_bytes words.now) place }
{
    words[place].as_bytes()
}

/// The value in a word that is the option of a name. The name has its dashes and its equals sign, and
/// the value is not empty.
pub fn value_in<'a>(word: &'a [u8], name: &[u8]) -> Option<&'a [u8]>
    ensures { option_map (λ value. value.now) result ≡ spec.value_in name.now word.now }
{
    word.strip_prefix(name).filter(|value| !value.is_empty())
}

#[tactic(auto, using(crate::proofs::WordsLemmas::same_letter))]
fn is_option(word: &[u8], name: &[u8]) -> bool
    ensures { result ≡ spec.is_option name.now word.now }
{
    name.len() < word.len()
        && (name.len() <= TELLING || word[TELLING] == name[TELLING])
        && word.starts_with(name)
}

fn is_any_option(word: &[u8], names: &[&[u8]]) -> bool
    ensures { result ≡ list_any (λ name. spec.is_option name.now word.now) names.now }
{
    names.iter().any(|name| is_option(word, name))
}

fn are_known(words: &[String], names: &[&[u8]]) -> bool
    ensures { result ≡ list_all (λ word. list_any
        (λ name. spec.is_option name.now (string_bytes word)) names.now) words.now }
{
    words
        .iter()
        .all(|word| is_any_option(word.as_bytes(), names))
}

// How often the option of a name stands among words.
fn count_of(words: &[String], name: &[u8]) -> usize
    ensures { result ≡ spec.count_of name.now (map string_bytes words.now) }
{
    words
        .iter()
        .filter(|word| is_option(word.as_bytes(), name))
        .count()
}

fn are_single(words: &[String], names: &[&[u8]]) -> bool
    ensures { result ≡ list_all (λ name. nat_le
        (spec.count_of name.now (map string_bytes words.now)) 1) names.now }
{
    names.iter().all(|name| count_of(words, name) <= 1)
}

/// Whether each word is the option of one of two lists of names, and each option of the first list
/// stands once at most.
pub fn are_options(words: &[String], names: &[&[u8]], single: &[&[u8]]) -> bool
    ensures { result ≡ spec.are_options (map (λ name. name.now) names.now)
        (map (λ name. name.now) single.now) (map string_bytes words.now) }
{
    are_known(words, names) && are_single(words, single)
}

fn is_word(word: &[u8], plain: &[u8]) -> bool
    ensures { result ≡ bytes_eq word.now plain.now }
{
    word == plain
}

fn is_any_word(word: &[u8], plains: &[&[u8]]) -> bool
    ensures { result ≡ list_any (λ plain. bytes_eq word.now plain.now) plains.now }
{
    plains.iter().any(|plain| is_word(word, plain))
}

fn is_known_beside(word: &[u8], plains: &[&[u8]], names: &[&[u8]]) -> bool
    ensures { result ≡ (list_any (λ plain. bytes_eq word.now plain.now) plains.now
        || list_any (λ name. spec.is_option name.now word.now) names.now) }
{
    is_any_word(word, plains) || is_any_option(word, names)
}

/// Whether a word that has no value is among others.
pub fn has_word(words: &[String], plain: &[u8]) -> bool
    ensures { result ≡ list_any (λ word. bytes_eq (string_bytes word) plain.now) words.now }
{
    words.iter().any(|word| is_word(word.as_bytes(), plain))
}

fn has_word_once(words: &[String], plain: &[u8]) -> bool
    ensures { result ≡ spec.has_word_once plain.now (map string_bytes words.now) }
{
    words.iter().filter(|word| word.as_bytes() == plain).count() <= 1
}

fn are_known_beside(words: &[String], plains: &[&[u8]], names: &[&[u8]]) -> bool
    ensures { result ≡ list_all (λ word. list_any
        (λ plain. bytes_eq (string_bytes word) plain.now) plains.now
        || list_any (λ name. spec.is_option name.now (string_bytes word)) names.now) words.now }
{
    words
        .iter()
        .all(|word| is_known_beside(word.as_bytes(), plains, names))
}

fn have_words_once(words: &[String], plains: &[&[u8]]) -> bool
    ensures { result ≡ list_all (λ plain. spec.has_word_once plain.now
        (map string_bytes words.now)) plains.now }
{
    plains.iter().all(|plain| has_word_once(words, plain))
}

// Whether each of the words and each option stand once at most.
fn are_once(words: &[String], plains: &[&[u8]], single: &[&[u8]]) -> bool
    ensures { result ≡ spec.are_once (map (λ plain. plain.now) plains.now)
        (map (λ name. name.now) single.now) (map string_bytes words.now) }
{
    have_words_once(words, plains) && are_single(words, single)
}

/// The same as `are_options`, if words that have no value may be among them, each once.
pub fn are_options_beside(
    words: &[String],
    plains: &[&[u8]],
    names: &[&[u8]],
    single: &[&[u8]],
) -> bool
    ensures { result ≡ spec.are_options_beside (map (λ plain. plain.now) plains.now)
        (map (λ name. name.now) names.now) (map (λ name. name.now) single.now)
        (map string_bytes words.now) }
{
    are_known_beside(words, plains, names) && are_once(words, plains, single)
}

fn find_option<'a>(words: &'a [String], name: &[u8]) -> Option<&'a String>
    ensures { option_map (λ word. word.now) result
        ≡ find (λ word. spec.is_option name.now (string_bytes word)) words.now }
{
    words.iter().find(|word| is_option(word.as_bytes(), name))
}

/// The value of the first option of a name.
#[tactic(auto, using(crate::proofs::WordsLemmas::found_strings))]
pub fn value_of<'a>(words: &'a [String], name: &[u8]) -> Option<&'a [u8]>
    ensures { option_map (λ value. value.now) result
        ≡ spec.value_of name.now (map string_bytes words.now) }
{
    let word = find_option(words, name)?;
    value_in(word.as_bytes(), name)
}
