// Words that few letters part: the name that a misspelt one most likely stands for.
ghost use Rattle.std.specs.Prelude.{◌≡◌, option_copied};
ghost use Rattle.explanations.specs.Lists.{words_view};
ghost use Rattle.explanations.specs.Nearest.{first_one_apart, first_two_apart, nearest};
ghost use Rattle.explanations.specs.Nearest.{one_apart, two_apart};

// Whether at most one letter parts the words.
fn one_apart(word: &[u8], other: &[u8]) -> bool
    ensures { result ≡ one_apart word.now other.now }
{
    match word {
        [] => other.len() <= 1,
        [first, behind @ ..] => match other {
            [] => behind.len() == 0,
            [second, after @ ..] => {
                if first == second {
                    one_apart(behind, after)
                } else {
                    behind == other || word == after || behind == after
                }
            }
        },
    }
}

// Whether at most two letters part the words.
fn two_apart(word: &[u8], other: &[u8]) -> bool
    ensures { result ≡ two_apart word.now other.now }
{
    match word {
        [] => other.len() <= 2,
        [first, behind @ ..] => match other {
            [] => behind.len() <= 1,
            [second, after @ ..] => {
                if first == second {
                    two_apart(behind, after)
                } else {
                    one_apart(behind, other) || one_apart(word, after) || one_apart(behind, after)
                }
            }
        },
    }
}

// The first of the names that at most one letter parts from the word.
fn first_one_apart<'a>(names: &[&'a str], word: &str) -> Option<&'a str>
    ensures { option_copied result ≡ first_one_apart (words_view names.now) word.now }
{
    for name in names {
        if one_apart(word.as_bytes(), name.as_bytes()) {
            return Some(*name);
        }
    }
    None
}

// The first of the names that at most two letters part from the word.
fn first_two_apart<'a>(names: &[&'a str], word: &str) -> Option<&'a str>
    ensures { option_copied result ≡ first_two_apart (words_view names.now) word.now }
{
    for name in names {
        if two_apart(word.as_bytes(), name.as_bytes()) {
            return Some(*name);
        }
    }
    None
}

/// The nearest of the names, if at most two letters part it from the word: the first that one
/// letter parts from it, or else that two do. The letters are those that the distance of
/// Levenshtein (1966) counts.
pub(crate) fn nearest<'a>(names: &[&'a str], word: &str) -> Option<&'a str>
    ensures { option_copied result ≡ nearest (words_view names.now) word.now }
{
    match first_one_apart(names, word) {
        Some(name) => Some(name),
        None => first_two_apart(names, word),
    }
}
