ghost use Rattle.std.specs.Prelude.{◌≡◌, ◌<◌, ◌≤◌, ◌∷◌, not, false, length, IfOk, IfSome, MatchOption, Some, None, option_copied};
ghost use Rattle.std.specs.List.{list_any};
ghost use Rattle.lload_conf.specs.Faults.{entry_fault, has_key, has_left_out, has_unknown, is_action, has_unreadable, has_wrong_count, is_left_out, is_left_out_argument, is_unknown, is_unknown_argument, is_unreadable, is_unreadable_argument, lacks_key, lacks_tier, passes_limit, first_repeat, places_of, repeats, stands_twice};
ghost use Rattle.lload_conf.specs.Line.{argument_of, argument_read, key_of, number_of, second_of, value_of, value_under};

use crate::table::{
    Arguments, BINDCONNS, Directive, NUMCONNS, Number, Takes, key_named, same_name,
};
use crate::values::{
    Target, action_named, is_feature, is_isolate, is_left_out_feature, is_oid, number,
    number_or_default, parts, seconds, tier_kind, uri_target,
};
use lload_names::{NoMemory, Word};
use std::alloc::Global;
use std::collections::HashSet;

/// What stood before a line: whether its directive did and may not again, or restricted its OID; and how many tiers,
/// backends and places there are.
#[derive(Clone, Copy, Debug, Drop)]
pub struct Before {
    pub stood: bool,
    pub tiers: u32,
    pub backends: usize,
    pub places: u32,
}

/// The lowest kind of fault of a line of a known directive, which is given by its arguments; `None` where it has none.
/// The kinds are looked at in rising order, each by a function of its own.
pub fn entry_fault(
    alloc: Global,
    before: Before,
    entry: (Directive, Arguments),
    words: &[Word],
) -> Result<Option<u8>, NoMemory>
    ensures { IfOk result (λ fault. fault ≡ entry_fault before entry words.now) }
{
    let (directive, arguments) = entry;
    let kind = if has_wrong_count(arguments, words) {
        4
    } else if has_unreadable(arguments, words) {
        5
    } else if has_unknown(arguments, words) {
        6
    } else if stands_twice(alloc, before, arguments, words)? {
        7
    } else if has_left_out(arguments, words) {
        8
    } else if lacks_tier(before, directive) {
        9
    } else if lacks_key(directive, words) {
        11
    } else if passes_limit(before, directive, words) {
        12
    } else {
        return Ok(None);
    };
    Ok(Some(kind))
}

/// Kind 4: the count of arguments is wrong.
fn has_wrong_count(arguments: Arguments, words: &[Word]) -> bool
    ensures { result ≡ has_wrong_count arguments words.now }
{
    match arguments {
        Arguments::One(_) => words.len() != 1,
        Arguments::Each(_) | Arguments::Pairs(_) => words.len() == 0,
        Arguments::Restriction => words.len() != 2,
        Arguments::Unread => false,
    }
}

/// Kind 5: a number is unreadable or out of range, or an OID is unreadable.
fn has_unreadable(arguments: Arguments, words: &[Word]) -> bool
    ensures { result ≡ has_unreadable arguments words.now }
{
    match arguments {
        Arguments::Restriction => match words.first() {
            Some(oid) => !is_oid(oid.as_str()),
            None => false,
        },
        _ => has_unreadable_argument(arguments, words),
    }
}

fn has_unreadable_argument(arguments: Arguments, words: &[Word]) -> bool
    ensures { result ≡ list_any (is_unreadable_argument arguments) words.now }
{
    words
        .iter()
        .any(|word| is_unreadable_argument(arguments, word))
}

pub fn is_unreadable_argument(arguments: Arguments, word: &Word) -> bool
    ensures { result ≡ is_unreadable_argument arguments word.now }
{
    match argument_read(arguments, word) {
        Some((takes, text)) => is_unreadable(takes, text),
        None => false,
    }
}

fn is_unreadable(takes: Takes, text: &str) -> bool
    ensures { result ≡ is_unreadable takes text.now }
{
    match takes {
        Takes::Number(range) => number(range, text).is_none(),
        Takes::Seconds => seconds(text).is_none(),
        Takes::Uri => matches!(uri_target(text), Target::Unreadable),
        _ => false,
    }
}

/// Kind 6: a key, a feature, a tier type or an action is unknown, or an argument that is to be a key with its value has
/// no `=`.
fn has_unknown(arguments: Arguments, words: &[Word]) -> bool
    ensures { result ≡ has_unknown arguments words.now }
{
    match arguments {
        Arguments::Restriction => match second_of(words) {
            Some(action) => !is_action(action),
            None => false,
        },
        _ => has_unknown_argument(arguments, words),
    }
}

/// Whether a text is an action of lloadd.conf(5).
fn is_action(text: &str) -> bool
    ensures { result ≡ is_action text.now }
{
    action_named(text).is_some() || is_isolate(text)
}

fn has_unknown_argument(arguments: Arguments, words: &[Word]) -> bool
    ensures { result ≡ list_any (is_unknown_argument arguments) words.now }
{
    words
        .iter()
        .any(|word| is_unknown_argument(arguments, word))
}

pub fn is_unknown_argument(arguments: Arguments, word: &Word) -> bool
    ensures { result ≡ is_unknown_argument arguments word.now }
{
    match argument_read(arguments, word) {
        Some((takes, text)) => is_unknown(takes, text),
        None => true,
    }
}

fn is_unknown(takes: Takes, text: &str) -> bool
    ensures { result ≡ is_unknown takes text.now }
{
    match takes {
        Takes::Kind => tier_kind(text).is_none(),
        Takes::Feature => !is_feature(text),
        _ => false,
    }
}

/// Kind 7: a key stands twice in the line, or the directive stood before and may not stand again, or restricted the OID.
fn stands_twice(
    alloc: Global,
    before: Before,
    arguments: Arguments,
    words: &[Word],
) -> Result<bool, NoMemory>
    ensures { IfOk result (λ twice. twice ≡ stands_twice before arguments words.now) }
{
    Ok(repeats(alloc, arguments, words)? || before.stood)
}

fn repeats(alloc: Global, arguments: Arguments, words: &[Word]) -> Result<bool, NoMemory>
    ensures { IfOk result (λ twice. twice ≡ repeats arguments words.now) }
{
    match arguments {
        Arguments::Pairs(_) => Ok(first_repeat(alloc, words)?.is_some()),
        _ => Ok(false),
    }
}

/// Kind 8: something that this proxy doesn't have stands in the line.
fn has_left_out(arguments: Arguments, words: &[Word]) -> bool
    ensures { result ≡ has_left_out arguments words.now }
{
    match arguments {
        Arguments::Restriction => match second_of(words) {
            Some(action) => is_isolate(action),
            None => false,
        },
        Arguments::Unread => true,
        _ => has_left_out_argument(arguments, words),
    }
}

fn has_left_out_argument(arguments: Arguments, words: &[Word]) -> bool
    ensures { result ≡ list_any (is_left_out_argument arguments) words.now }
{
    words
        .iter()
        .any(|word| is_left_out_argument(arguments, word))
}

pub fn is_left_out_argument(arguments: Arguments, word: &Word) -> bool
    ensures { result ≡ is_left_out_argument arguments word.now }
{
    match argument_read(arguments, word) {
        Some((takes, text)) => is_left_out(takes, text),
        None => false,
    }
}

fn is_left_out(takes: Takes, text: &str) -> bool
    ensures { result ≡ is_left_out takes text.now }
{
    match takes {
        Takes::LeftOut => true,
        Takes::Feature => is_left_out_feature(text),
        Takes::Method => text != "simple",
        Takes::Uri => matches!(uri_target(text), Target::Elsewhere),
        _ => false,
    }
}

/// Kind 9: a backend stands before any tier.
fn lacks_tier(before: Before, directive: Directive) -> bool
    ensures { result ≡ lacks_tier before directive }
{
    match directive {
        Directive::BackendServer => before.tiers == 0,
        _ => false,
    }
}

/// Kind 11: `uri` is missing; `bindmethod` stands without both `binddn` and `credentials`, or one of these without it.
fn lacks_key(directive: Directive, words: &[Word]) -> bool
    ensures { result ≡ lacks_key directive words.now }
{
    match directive {
        Directive::BackendServer => !has_key(words, "uri"),
        Directive::BindConf => {
            let dn = has_key(words, "binddn");
            let credentials = has_key(words, "credentials");
            if has_key(words, "bindmethod") {
                !(dn && credentials)
            } else {
                dn || credentials
            }
        }
        _ => false,
    }
}

/// Kind 12: the line passes 64 tiers, 64 backends or 512 places.
fn passes_limit(before: Before, directive: Directive, words: &[Word]) -> bool
    ensures { result ≡ passes_limit before directive words.now }
{
    match directive {
        Directive::Tier => before.tiers >= 64,
        Directive::BackendServer => {
            before.backends >= 64 || before.places as u64 + places_of(words) as u64 > 512
        }
        _ => false,
    }
}

/// How many places the arguments of a backend give it.
pub fn places_of(words: &[Word]) -> u32
    ensures { result ≡ places_of words.now }
{
    number_of(words, "numconns", NUMCONNS) + number_of(words, "bindconns", BINDCONNS)
}

/// What an argument may be, and its text; `None` where it is to be a key with its value, and has no `=` or an unknown
/// key.
pub fn argument_read(arguments: Arguments, word: &Word) -> Option<(Takes, &str)>
    ensures { MatchOption result (argument_read arguments word.now ≡ None) (λ read. argument_read arguments word.now ≡ Some (read.0, read.1.now)) }
{
    match arguments {
        Arguments::One(takes) | Arguments::Each(takes) => Some((takes, word.as_str())),
        Arguments::Pairs(keys) => {
            let (key, value) = parts(word.as_str(), '=')?;
            let takes = key_named(keys, key)?;
            Some((takes, value))
        }
        Arguments::Restriction | Arguments::Unread => Some((Takes::Text, word.as_str())),
    }
}

/// The second of some arguments.
pub fn second_of(words: &[Word]) -> Option<&str>
    ensures { option_copied result ≡ second_of words.now }
{
    match words {
        [_, second, ..] => Some(second.as_str()),
        _ => None,
    }
}

/// The number of a key among some arguments, or its default.
pub fn number_of(words: &[Word], name: &str, range: Number) -> u32
    ensures value { result ≡ number_of name.now range words.now }
    ensures small { range.default ≤ range.high → result ≤ range.high }
{
    number_or_default(range, value_of(words, name))
}

/// Whether some arguments set a key.
pub fn has_key(words: &[Word], name: &str) -> bool
    ensures { result ≡ has_key name.now words.now }
{
    value_of(words, name).is_some()
}

/// The value of a key among some arguments.
pub fn value_of<'a>(words: &'a [Word], name: &str) -> Option<&'a str>
    ensures { option_copied result ≡ value_of name.now words.now }
{
    for word in words {
        if let Some(value) = value_under(word, name) {
            return Some(value);
        }
    }
    None
}

/// The value of an argument, where it sets a key.
fn value_under<'a>(word: &'a Word, name: &str) -> Option<&'a str>
    ensures { option_copied result ≡ value_under name.now word.now }
{
    let (key, value) = parts(word.as_str(), '=')?;
    if same_name(key, name) {
        Some(value)
    } else {
        None
    }
}

/// The index of the first argument whose key an argument before it has.
pub fn first_repeat(alloc: Global, words: &[Word]) -> Result<Option<usize>, NoMemory>
    ensures is { IfOk result (λ index. index ≡ first_repeat words.now) }
    ensures inside { IfOk result (λ index. IfSome index (λ i. i < length words.now)) }
{
    let mut seen = HashSet::new(alloc);
    let mut index = 0;
    for word in words {
        let mut key = String::from_str(alloc, key_of(word))?;
        key.make_ascii_lowercase();
        if !seen.insert(key)? {
            return Ok(Some(index));
        }
        index += 1;
    }
    Ok(None)
}

/// The key of an argument: what stands before its first `=`.
pub fn key_of(word: &Word) -> &str
    ensures { result.now ≡ key_of word.now }
{
    match parts(word.as_str(), '=') {
        Some((key, _)) => key,
        None => word.as_str(),
    }
}
