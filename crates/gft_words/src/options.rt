ghost use Rattle.std.specs.Prelude.{◌≡◌, ◌≤◌, ℕ, List, [], ◌∷◌, ◌++◌, codes, map};
ghost use Rattle.std.specs.Prelude.{IfSome, MatchOption};
ghost use Rattle.gft_words.specs.Arguments.{given_by};
ghost use Rattle.gft_words.specs.Lookups.{IsLookup};
ghost use Rattle.gft_words.specs.Options.{IsAddress, IsOneOr, IsWithin, SaysNumber, values};
ghost use Rattle.gft_words.specs.declared.options.Lookup.{Lookup};

use crate::arguments::Argument;
use gft_base::{read_decimal, split_first};

/// An option whose value is a number of a range.
#[derive(Clone, Copy)]
pub(crate) struct NumberOption {
    pub(crate) key: &'static str,
    pub(crate) least: u64,
    pub(crate) most: u64,
    pub(crate) default: u64,
}

/// What is given to a key.
#[derive(Clone, Copy)]
enum Lookup<'a> {
    Absent,
    Once(&'a [u8]),
    Twice,
}

/// What the arguments give to a key.
fn look_up<'a>(arguments: &[Argument<'a>], key: &[u8]) -> Lookup<'a>
    ensures { IsLookup result (values key.now (map given_by arguments.now)) }
{
    let mut found = Lookup::Absent;
    for argument in arguments {
        found = found_with(found, argument, key);
    }
    found
}

/// With what one argument more gives to the key.
fn found_with<'a>(found: Lookup<'a>, argument: &Argument<'a>, key: &[u8]) -> Lookup<'a>
    ensures { (before : List (List ℕ)) → IsLookup found.entry before
        → IsLookup result (before ++ values key.now (given_by argument.now ∷ [])) }
{
    match *argument {
        Argument::Keyed { key: other, value } if other == key => also(found, value),
        _ => found,
    }
}

/// With one value more.
fn also<'a>(found: Lookup<'a>, value: &'a [u8]) -> Lookup<'a>
    ensures { (before : List (List ℕ)) → IsLookup found.entry before
        → IsLookup result (before ++ value.now ∷ []) }
{
    match found {
        Lookup::Absent => Lookup::Once(value),
        Lookup::Once(_) => Lookup::Twice,
        Lookup::Twice => Lookup::Twice,
    }
}

/// The number that is given to the option's key, or its default. `None` where it is given twice, or
/// isn't a number of the range.
pub(crate) fn number_or(arguments: &[Argument<'_>], option: &NumberOption) -> Option<u64>
    requires { option.now.default ≤ option.now.most }
    ensures number { let Says = SaysNumber option.now.key.now option.now.least option.now.most
        option.now.default (map given_by arguments.now) in
        MatchOption result ((n : ℕ) → ¬ Says n) Says }
    ensures high { IfSome result (λ n. n ≤ option.now.most) }
{
    match look_up(arguments, option.key.as_bytes()) {
        Lookup::Absent => Some(option.default),
        Lookup::Once(value) => read_within(value, option.least, option.most),
        Lookup::Twice => None,
    }
}

/// The address that is given to `address`, or 127.0.0.1.
pub(crate) fn address_or_loopback(arguments: &[Argument<'_>]) -> Option<[u8; 4]>
    ensures { let given = values (codes "address") (map given_by arguments.now) in
        let Is = IsOneOr IsAddress (127 ∷ 0 ∷ 0 ∷ 1 ∷ []) given in
        MatchOption result ((host : List ℕ) → ¬ Is host) Is }
{
    match look_up(arguments, b"address") {
        Lookup::Absent => Some([127, 0, 0, 1]),
        Lookup::Once(value) => read_address(value),
        Lookup::Twice => None,
    }
}

/// A number, from `least` to `most`.
pub(crate) fn read_within(text: &[u8], least: u64, most: u64) -> Option<u64>
    ensures { MatchOption result
        ((n : ℕ) → ¬ IsWithin least most text.now n) (IsWithin least most text.now) }
{
    let number = read_decimal(text)?;
    if number < least || most < number {
        return None;
    }
    Some(number)
}

/// Four numbers up to 255, with points between them.
fn read_address(text: &[u8]) -> Option<[u8; 4]>
    ensures { MatchOption result
        ((host : List ℕ) → ¬ IsAddress text.now host) (IsAddress text.now) }
{
    let mut host = [0; 4];
    let mut rest = Some(text);
    for number in host.iter_mut() {
        let (part, behind) = split_first(rest?, b'.');
        *number = read_within(part, 0, 255)? as u8;
        rest = behind;
    }
    match rest {
        Some(_) => None,
        None => Some(host),
    }
}
