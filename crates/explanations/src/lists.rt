// Lists of words: which words are among others, and how they are written one after the other.
ghost use Rattle.std.specs.Prelude.{◌≡◌, ◌++◌, OnOk};
ghost use Rattle.explanations.specs.Lists.{all_among, among, listed, listed_behind, separator};
ghost use Rattle.explanations.specs.Lists.{words_view};

use nq_model::{List, Memory};

/// Whether the word is one of these.
pub(crate) fn among(words: &[&str], word: &str) -> bool
    ensures { result ≡ among (words_view words.now) word.now }
{
    for known in words {
        if *known == word {
            return true;
        }
    }
    false
}

/// Whether all parts are among the words.
pub(crate) fn all_among(words: &[&str], parts: &[&str]) -> bool
    ensures { result ≡ all_among (words_view words.now) (words_view parts.now) }
{
    for part in parts {
        if !among(words, part) {
            return false;
        }
    }
    true
}

/// What stands before a word that so many follow.
pub(crate) fn separator<'a>(last: &'a str, behind: usize) -> &'a str
    ensures { result.now ≡ separator last.now behind }
{
    if behind == 0 { last } else { ", " }
}

// Puts the words, which stand behind others.
fn put_behind(text: &mut List<u8>, last: &str, words: &[&str]) -> Result<(), Memory>
    ensures { OnOk result (text.new
        ≡ text.old ++ listed_behind last.now (words_view words.now)) }
{
    for at in 0..words.len() {
        put_word(text, last, words[at], words.len() - at - 1)?;
    }
    Ok(())
}

// Puts a word that so many follow, and what stands before it.
fn put_word(text: &mut List<u8>, last: &str, word: &str, behind: usize) -> Result<(), Memory>
    ensures { OnOk result (text.new ≡ text.old ++ (separator last.now behind ++ word.now)) }
{
    text.extend_from_slice(separator(last, behind).as_bytes())?;
    text.extend_from_slice(word.as_bytes())
}

/// Puts the words, with this before the last of them.
pub(crate) fn put_listed(text: &mut List<u8>, last: &str, words: &[&str]) -> Result<(), Memory>
    ensures { OnOk result (text.new
        ≡ text.old ++ listed last.now (words_view words.now)) }
{
    match words {
        [] => text.extend_from_slice(b"none"),
        [first, behind @ ..] => {
            text.extend_from_slice(first.as_bytes())?;
            put_behind(text, last, behind)
        }
    }
}
