ghost use Rattle.std.specs.Prelude.{◌≡◌, ◌<◌, length, IfOk, IfSome, MatchOption, None, Some};
ghost use Rattle.std.specs.List.{position};
ghost use Rattle.lload_conf.specs.Faults.{is_left_out_argument, is_unknown_argument, is_unreadable_argument};
ghost use Rattle.lload_conf.specs.Line.{arguments_of, is_of};
ghost use Rattle.lload_conf.specs.FaultyWord.{argument_at, faulty_argument, faulty_text, faulty_word, left_out_at, missing_key, repeated_at, surplus, unknown_at, unreadable_at, wanted_of};

use crate::line::{
    argument_read, first_repeat, has_key, is_left_out_argument, is_unknown_argument,
    is_unreadable_argument,
};
use crate::table::{Arguments, Directive, Takes, directive_named};
use lload_names::{NoMemory, Word};
use std::alloc::Global;

/// The index of the word of a line that its fault is of. The directive is the word 0, which also stands for the line as a
/// whole.
pub fn faulty_word(alloc: Global, kind: u8, words: &[Word]) -> Result<usize, NoMemory>
    ensures { IfOk result (λ index. index ≡ faulty_word kind words.now) }
{
    let Some((name, arguments)) = words.split_first() else {
        return Ok(0);
    };
    let Some((_, takes)) = directive_named(name.as_str()) else {
        return Ok(0);
    };
    match faulty_argument(alloc, kind, takes, arguments)? {
        Some(index) => Ok(index + 1),
        None => Ok(0),
    }
}

/// The text that a fault is of: of kind 11 the key that is missing, and else its word.
pub fn faulty_text(kind: u8, words: &[Word], index: usize) -> &str
    requires { index ≡ faulty_word kind words.now }
    ensures { result.now ≡ faulty_text kind words.now }
{
    if kind == 11 {
        return missing_key(words);
    }
    match words.get(index) {
        Some(word) => word.as_str(),
        None => "",
    }
}

/// What an argument of a directive may be, and its text; `None` where the directive isn't known, or the argument is to be a
/// key with its value, and has no `=` or an unknown key.
pub fn wanted_of<'a>(directive: &str, argument: &'a Word) -> Option<(Takes, &'a str)>
    ensures { MatchOption result (wanted_of directive.now argument.now ≡ None) (λ read. wanted_of directive.now argument.now ≡ Some (read.0, read.1.now)) }
{
    let (_, arguments) = directive_named(directive)?;
    argument_read(arguments, argument)
}

/// The argument that a fault is of, counted from 0; `None` where it is of the line as a whole.
fn faulty_argument(
    alloc: Global,
    kind: u8,
    arguments: Arguments,
    words: &[Word],
) -> Result<Option<usize>, NoMemory>
    ensures is { IfOk result (λ index. index ≡ faulty_argument kind arguments words.now) }
    ensures inside { IfOk result (λ index. IfSome index (λ i. i < length words.now)) }
{
    Ok(match kind {
        4 => surplus(arguments, words),
        5 => unreadable_at(arguments, words),
        6 => unknown_at(arguments, words),
        7 => repeated_at(alloc, arguments, words)?,
        8 => left_out_at(arguments, words),
        _ => None,
    })
}

/// An index among the arguments, where one stands there.
fn argument_at(index: usize, words: &[Word]) -> Option<usize>
    ensures is { result ≡ argument_at index words.now }
    ensures inside { IfSome result (λ i. i < length words.now) }
{
    (index < words.len()).then_some(index)
}

/// Kind 4: the first argument too many.
fn surplus(arguments: Arguments, words: &[Word]) -> Option<usize>
    ensures is { result ≡ surplus arguments words.now }
    ensures inside { IfSome result (λ i. i < length words.now) }
{
    match arguments {
        Arguments::One(_) => argument_at(1, words),
        Arguments::Restriction => argument_at(2, words),
        _ => None,
    }
}

/// Kind 5: the first argument that is unreadable.
fn unreadable_at(arguments: Arguments, words: &[Word]) -> Option<usize>
    ensures is { result ≡ unreadable_at arguments words.now }
    ensures inside { IfSome result (λ i. i < length words.now) }
{
    match arguments {
        Arguments::Restriction => argument_at(0, words),
        _ => first_unreadable(arguments, words),
    }
}

fn first_unreadable(arguments: Arguments, words: &[Word]) -> Option<usize>
    ensures is { result ≡ position (is_unreadable_argument arguments) words.now }
    ensures inside { IfSome result (λ i. i < length words.now) }
{
    words
        .iter()
        .position(|word| is_unreadable_argument(arguments, word))
}

/// Kind 6: the first argument that isn't known.
fn unknown_at(arguments: Arguments, words: &[Word]) -> Option<usize>
    ensures is { result ≡ unknown_at arguments words.now }
    ensures inside { IfSome result (λ i. i < length words.now) }
{
    match arguments {
        Arguments::Restriction => argument_at(1, words),
        _ => first_unknown(arguments, words),
    }
}

fn first_unknown(arguments: Arguments, words: &[Word]) -> Option<usize>
    ensures is { result ≡ position (is_unknown_argument arguments) words.now }
    ensures inside { IfSome result (λ i. i < length words.now) }
{
    words
        .iter()
        .position(|word| is_unknown_argument(arguments, word))
}

/// Kind 7: the first key that stood before, or the OID; `None` where the directive did.
fn repeated_at(
    alloc: Global,
    arguments: Arguments,
    words: &[Word],
) -> Result<Option<usize>, NoMemory>
    ensures is { IfOk result (λ index. index ≡ repeated_at arguments words.now) }
    ensures inside { IfOk result (λ index. IfSome index (λ i. i < length words.now)) }
{
    match arguments {
        Arguments::Pairs(_) => first_repeat(alloc, words),
        Arguments::Restriction => Ok(argument_at(0, words)),
        _ => Ok(None),
    }
}

/// Kind 8: the first argument that is left out; `None` where the directive is.
fn left_out_at(arguments: Arguments, words: &[Word]) -> Option<usize>
    ensures is { result ≡ left_out_at arguments words.now }
    ensures inside { IfSome result (λ i. i < length words.now) }
{
    match arguments {
        Arguments::Restriction => argument_at(1, words),
        Arguments::Unread => None,
        _ => first_left_out(arguments, words),
    }
}

fn first_left_out(arguments: Arguments, words: &[Word]) -> Option<usize>
    ensures is { result ≡ position (is_left_out_argument arguments) words.now }
    ensures inside { IfSome result (λ i. i < length words.now) }
{
    words
        .iter()
        .position(|word| is_left_out_argument(arguments, word))
}

/// The key that is missing in a line of kind 11.
fn missing_key(words: &[Word]) -> &'static str
    ensures { result.now ≡ missing_key words.now }
{
    if is_backend(words) {
        return "uri";
    }
    let arguments = arguments_of(words);
    if !has_key(arguments, "bindmethod") {
        return "bindmethod";
    }
    if has_key(arguments, "binddn") {
        "credentials"
    } else {
        "binddn"
    }
}

/// Whether a line is of a backend.
fn is_backend(words: &[Word]) -> bool
    ensures { result ≡ is_of Directive.BackendServer words.now }
{
    match words.first() {
        Some(name) => match directive_named(name.as_str()) {
            Some((directive, _)) => directive == Directive::BackendServer,
            None => false,
        },
        None => false,
    }
}

/// The arguments of a line.
fn arguments_of(words: &[Word]) -> &[Word]
    ensures { result.now ≡ arguments_of words.now }
{
    match words {
        [_, arguments @ ..] => arguments,
        [] => words,
    }
}
