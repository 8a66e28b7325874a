ghost use Rattle.std.specs.Prelude.{◌≡◌, ◌<◌, ◌≤◌, ℕ, List, [], length, map};
ghost use Rattle.std.specs.Prelude.{IfOk, IfErr, MatchOption};
ghost use Rattle.gft_words.specs.Arguments.{Begins, Given, Gives, IsPlain, IsKeyed, Keyed, given_by, texts};
ghost use Rattle.gft_words.specs.Refusal.{RefusesWords};

use crate::error::WordsError;
use gft_base::{split_first, strip_front};
use std::alloc::Global;

/// What one or two words of a command give.
#[derive(Clone, Copy)]
pub(crate) enum Argument<'a> {
    /// A word that stands for itself.
    Positional(&'a [u8]),
    /// `--key value` or `--key=value`.
    Keyed { key: &'a [u8], value: &'a [u8] },
}

/// An argument, and the words behind it.
type Next<'a> = (Argument<'a>, &'a [String]);

/// The arguments that the words give, in their order. `Usage` where a word is empty, begins with one
/// `-`, or is an option without its value.
pub(crate) fn read_arguments<'a>(
    alloc: Global,
    words: &'a [String],
) -> Result<Vec<Argument<'a>>, WordsError>
    ensures given { IfOk result (λ arguments.
        Gives (texts words.now) (map given_by arguments.items) []) }
    ensures none { IfErr result
        (RefusesWords ((given : List Given) → ¬ Gives (texts words.now) given [])) }
{
    let mut arguments = Vec::new(alloc);
    let mut rest = words;
    while !rest.is_empty() {
        let Some((argument, behind)) = next_argument(rest) else {
            return Err(WordsError::Usage);
        };
        arguments.push(argument)?;
        rest = behind;
    }
    Ok(arguments)
}

/// The argument with which the words begin.
fn next_argument<'a>(words: &'a [String]) -> Option<Next<'a>>
    ensures { MatchOption result
        ((given : Given) (rest : List (List ℕ)) → ¬ Begins (texts words.now) given rest)
        (λ next. Begins (texts words.now) (given_by next.0) (texts next.1.now)
        × (length next.1.now < length words.now)) }
{
    let (first, rest) = words.split_first()?;
    let word = first.as_str().as_bytes();
    match strip_front(word, b"--") {
        Some(option) => next_option(option, rest),
        None => Some((Argument::Positional(plain(word)?), rest)),
    }
}

/// The option that a word is behind its `--`, with its value there or in the next word.
fn next_option<'a>(option: &'a [u8], rest: &'a [String]) -> Option<Next<'a>>
    ensures { MatchOption result
        ((key value : List ℕ) (left : List (List ℕ)) →
        ¬ IsKeyed option.now (texts rest.now) key value left)
        (λ next. (key : List ℕ) × (value : List ℕ) × (given_by next.0 ≡ Keyed key value)
        × IsKeyed option.now (texts rest.now) key value (texts next.1.now)
        × (length next.1.now ≤ length rest.now)) }
{
    let (key, joined) = split_first(option, b'=');
    let Some(value) = joined else {
        let (next, left) = rest.split_first()?;
        let value = plain(next.as_str().as_bytes())?;
        return Some((Argument::Keyed { key, value }, left));
    };
    if value.is_empty() {
        return None;
    }
    Some((Argument::Keyed { key, value }, rest))
}

/// The word, where it stands for itself.
fn plain(word: &[u8]) -> Option<&[u8]>
    ensures { MatchOption result (¬ IsPlain word.now)
        (λ same. (same.now ≡ word.now) × IsPlain word.now) }
{
    if word.is_empty() || word[0] == b'-' {
        return None;
    }
    Some(word)
}
