ghost use Rattle.std.specs.Prelude.{◌≡◌};
ghost use Rattle.lload_conf.specs.FaultyWord.{wanted_of};
ghost use Rattle.lload_advice.specs.Advice.{AsksForRange};

use crate::dictionary::reason_named;
use crate::left_out::left_out;
use crate::naming::nearest;
use crate::reason::{Reason, Remedy};
use lload_conf::{
    ACTIONS, Arguments, BACKEND_KEYS, BIND_KEYS, DIRECTIVES, Directive, Keys, LineFault,
    TIER_KINDS, Takes, directive_named, wanted_of,
};
use lload_names::Word;

/// Why a line is faulty.
pub fn reason_of(fault: &LineFault) -> Reason
    ensures { fault.now.kind ≡ 5 → AsksForRange (wanted_of fault.now.directive fault.now.word) result.remedy }
{
    let directive = fault.directive.as_str();
    match fault.kind {
        1 => Reason::new("the line isn't UTF-8", "save the file in UTF-8"),
        2 => Reason::new(
            "a quote isn't closed",
            "close it, or write \\\" for a quote that is meant",
        ),
        3 => unknown_directive(fault.word.as_str()),
        4 => wrong_count(directive, fault.word.as_str()),
        5 => unreadable(directive, &fault.word),
        6 => unknown_argument(directive, fault.word.as_str()),
        7 => repeated(directive, fault.word.as_str()),
        8 => left_out(directive, &fault.word),
        9 => Reason::new(
            "the backend stands before any tier",
            "begin a tier above it: tier roundrobin",
        ),
        10 => Reason::new(
            "the file has no backend",
            "add one behind a tier: backend-server uri=ldap://127.0.0.1",
        ),
        11 => missing(directive),
        _ => too_many(directive),
    }
}

/// Kind 3: why a word is no directive.
fn unknown_directive(word: &str) -> Reason {
    if word.starts_with('\u{feff}') {
        return Reason::new(
            "a byte order mark stands before the directive",
            "save the file without it",
        );
    }
    if word.starts_with('#') {
        return Reason::new(
            "an indented # begins no comment here",
            "begin the comment in the first column",
        );
    }
    match reason_named(word) {
        Some(reason) => reason,
        None => unknown(
            "unknown directive",
            nearest(word, &DIRECTIVES),
            "look it up in lloadd.conf(5), or remove the line",
        ),
    }
}

/// The reason of what isn't known, with its nearest name, or else with this remedy.
fn unknown(wrong: &'static str, name: Option<&'static str>, remedy: &'static str) -> Reason {
    match name {
        Some(name) => Reason {
            wrong,
            remedy: Remedy::Name(name),
        },
        None => Reason::new(wrong, remedy),
    }
}

/// Kind 4: what the arguments of a directive are to be.
fn wrong_count(directive: &str, word: &str) -> Reason {
    if word.starts_with('#') {
        return Reason::new(
            "a comment can't stand behind a directive",
            "put it on a line of its own",
        );
    }
    let Some((_, arguments)) = directive_named(directive) else {
        return unknown_directive(directive);
    };
    match arguments {
        Arguments::One(_) => Reason::new(
            "the directive takes just one argument",
            "give it one, in quotes where it has spaces",
        ),
        Arguments::Pairs(_) => Reason::new(
            "the directive takes one KEY=VALUE or more",
            "give it at least one",
        ),
        Arguments::Restriction => Reason::new(
            "the directive takes two arguments, an OID and an action",
            "give it both, and nothing else",
        ),
        _ => Reason::new(
            "the directive takes one argument or more",
            "give it at least one",
        ),
    }
}

/// Kind 5: what can be read in the place of an argument.
fn unreadable(directive: &str, argument: &Word) -> Reason
    ensures { AsksForRange (wanted_of directive.now argument.now) result.remedy }
{
    match wanted_of(directive, argument) {
        Some((Takes::Number(range), _)) => Reason {
            wrong: "the number can't be read or is out of its range",
            remedy: Remedy::Number(range),
        },
        Some((Takes::Seconds, _)) => Reason::new(
            "the seconds can't be read or are out of their range",
            "give a number from -2147483648 to 2147483647",
        ),
        Some((Takes::Uri, _)) => Reason::new(
            "a number of the address can't be read or is out of its range",
            "give four numbers from 0 to 255, and a port from 1 to 65535",
        ),
        _ => Reason::new(
            "this isn't an OID",
            "give groups of digits with single dots between them",
        ),
    }
}

/// Kind 6: why an argument isn't known.
fn unknown_argument(directive: &str, word: &str) -> Reason {
    let Some((_, arguments)) = directive_named(directive) else {
        return unknown_directive(directive);
    };
    match arguments {
        Arguments::Pairs(keys) => unknown_key(keys, word),
        Arguments::Restriction => unknown(
            "unknown action",
            nearest(word, &ACTIONS),
            "write ignore, write, backend, connection or reject",
        ),
        Arguments::One(_) => unknown(
            "unknown type of tier",
            nearest(word, &TIER_KINDS),
            "write roundrobin, weighted or bestof",
        ),
        _ => Reason::new("unknown feature", "write proxyauthz, which is the only one"),
    }
}

/// Kind 6: why an argument is no key with its value.
fn unknown_key(keys: Keys, word: &str) -> Reason {
    let Some((key, _)) = word.split_once('=') else {
        return Reason::new(
            "this isn't KEY=VALUE",
            "write both in one word, with a value that has spaces in quotes",
        );
    };
    let name = match keys {
        Keys::Bind => nearest(key, &BIND_KEYS),
        Keys::Backend => nearest(key, &BACKEND_KEYS),
    };
    unknown(
        "unknown key",
        name,
        "look it up in lloadd.conf(5), or remove it",
    )
}

/// Kind 7: what stands twice.
fn repeated(directive: &str, word: &str) -> Reason {
    match directive_named(directive) {
        Some((_, Arguments::Restriction)) => Reason::new(
            "the directive stood before with this OID",
            "keep one of the lines",
        ),
        Some((_, Arguments::Pairs(_))) if directive != word => Reason::new(
            "the key stands twice in the line",
            "keep one of them",
        ),
        _ => Reason::new(
            "the directive stood before, and may stand once only",
            "keep one of the lines",
        ),
    }
}

/// Kind 11: why a key is missed.
fn missing(directive: &str) -> Reason {
    match directive_named(directive) {
        Some((Directive::BackendServer, _)) => Reason::new(
            "the backend has no address",
            "add uri=ldap:// and its address",
        ),
        _ => Reason::new(
            "the key is missing",
            "give bindmethod=simple, binddn and credentials together",
        ),
    }
}

/// Kind 12: what there is too much of.
fn too_many(directive: &str) -> Reason {
    match directive_named(directive) {
        Some((Directive::Tier, _)) => Reason::new("there are more than 64 tiers", "leave some out"),
        _ => Reason::new(
            "there are more than 64 backends, or more than 512 connections to them together",
            "leave backends out, or give them fewer by numconns and bindconns, which are 10 each by default",
        ),
    }
}
