ghost use Rattle.std.specs.Prelude.{◌≡◌, ◌≤◌, ◌<◌, false, IfSome, MatchOption, Some, None, option_copied};
ghost use Rattle.std.specs.Char.{is_ascii_digit};
ghost use Rattle.std.specs.List.{list_all};
ghost use Rattle.lload_conf.specs.Table.{octet};
ghost use Rattle.lload_conf.specs.Values.{action_named, authority_target, four_groups, host_target, ip_of, is_decimal, is_isolate, is_left_out_feature, is_oid, is_feature, goes_on, negative, number, number_or_default, parts, seconds, seconds_or_default, target_at, tier_kind, uri_target, without_last_slash};

use crate::config::Address4;
use crate::table::{
    ACTIONS, NEGATIVE_COHERENCE, Number, OCTET, PORT, TIER_KINDS, WRITE_COHERENCE, named, same_name,
};
use lload_names::TierKind;
use restrictions::Action;

/// Where a `uri` leads.
#[derive(Clone, Copy, Debug, PartialEq, Eq, Drop)]
pub enum Target {
    /// To an address.
    At(Address4),
    /// A number in it can't be read or is out of range.
    Unreadable,
    /// It is of a form that the proxy doesn't have.
    Elsewhere,
}

/// Four groups of digits that stood with dots between them.
#[derive(Clone, Copy, Debug, Drop)]
struct Groups<'a> {
    first: &'a str,
    second: &'a str,
    third: &'a str,
    fourth: &'a str,
}

/// The number that a text says in decimal digits; `None` exactly where it says none in the range.
pub fn number(range: Number, text: &str) -> Option<u32>
    ensures value { result ≡ number range text.now }
    ensures in_range { IfSome result (λ value. value ≤ range.high) }
{
    if !is_decimal(text) {
        return None;
    }
    match text.parse::<u32>() {
        Ok(value) => (range.low <= value && value <= range.high).then_some(value),
        Err(_) => None,
    }
}

/// The same, or the default where the text says none or isn't there.
pub fn number_or_default(range: Number, text: Option<&str>) -> u32
    ensures value { result ≡ number_or_default range (option_copied text.entry) }
    ensures small { range.default ≤ range.high → result ≤ range.high }
{
    text.and_then(|text| number(range, text))
        .unwrap_or(range.default)
}

/// The number of seconds that a text says in decimal digits, behind a sign where it is negative; `None` exactly where it
/// says none in the range.
pub fn seconds(text: &str) -> Option<i32>
    ensures { result ≡ seconds text.now }
{
    match text.strip_prefix("-") {
        Some(digits) => Some(negative(number(NEGATIVE_COHERENCE, digits)?)),
        None => Some(number(WRITE_COHERENCE, text)? as i32),
    }
}

/// The same, or the default where the text says none or isn't there.
pub fn seconds_or_default(text: Option<&str>) -> i32
    ensures { result ≡ seconds_or_default (option_copied text.entry) }
{
    text.and_then(seconds)
        .unwrap_or(WRITE_COHERENCE.default as i32)
}

/// A number below zero, or zero.
fn negative(number: u32) -> i32
    requires { number ≤ 2147483648 }
    ensures { result ≡ negative number }
{
    match number {
        0 => 0,
        _ => -1 - (number - 1) as i32,
    }
}

/// Whether a text is an OID: groups of digits with single dots between them.
pub fn is_oid(text: &str) -> bool
    ensures { result ≡ is_oid text.now }
{
    let mut behind_digit = false;
    let mut left = text.as_bytes();
    while let Some((byte, behind)) = left.split_first() {
        if !goes_on(behind_digit, *byte) {
            return false;
        }
        behind_digit = *byte != b'.';
        left = behind;
    }
    behind_digit
}

/// Whether an OID goes on with a byte: a dot behind a digit, or a digit.
fn goes_on(behind_digit: bool, byte: u8) -> bool
    ensures { result ≡ goes_on behind_digit byte }
{
    match byte {
        b'.' => behind_digit,
        _ => byte.is_ascii_digit(),
    }
}

/// The action that a text names.
pub fn action_named(text: &str) -> Option<Action>
    ensures { result ≡ action_named text.now }
{
    named(&ACTIONS, text)
}

/// Whether a text names the action of lloadd.conf(5) that the proxy doesn't have.
pub fn is_isolate(text: &str) -> bool
    ensures { result ≡ is_isolate text.now }
{
    same_name(text, "isolate")
}

/// The kind of tier that a text names.
pub fn tier_kind(text: &str) -> Option<TierKind>
    ensures { result ≡ tier_kind text.now }
{
    named(&TIER_KINDS, text)
}

/// Whether a text names a feature of lloadd.conf(5).
pub fn is_feature(text: &str) -> bool
    ensures { result ≡ is_feature text.now }
{
    same_name(text, "proxyauthz") || is_left_out_feature(text)
}

/// Whether a text names the feature of lloadd.conf(5) that the proxy doesn't have.
pub fn is_left_out_feature(text: &str) -> bool
    ensures { result ≡ is_left_out_feature text.now }
{
    same_name(text, "vc")
}

/// The parts of a text round the first separator, which is an ASCII character.
pub fn parts(text: &str, separator: char) -> Option<(&str, &str)>
    requires { separator < 128 }
    ensures { MatchOption result (parts separator text.now ≡ None) (λ both. parts separator text.now ≡ Some (both.0.now, both.1.now)) }
{
    text.split_once(separator)
}

/// Where a `uri` leads: `ldap://`, then `localhost` or an IPv4 address, and then nothing, a slash, or a colon and a port
/// that a slash may follow.
pub fn uri_target(text: &str) -> Target
    ensures { result ≡ uri_target text.now }
{
    match text.strip_prefix("ldap://") {
        Some(rest) => authority_target(rest),
        None => Target::Elsewhere,
    }
}

/// The same of what stands behind `ldap://`.
fn authority_target(rest: &str) -> Target
    ensures { result ≡ authority_target rest.now }
{
    match parts(rest, ':') {
        Some((host, port)) => host_target(host, number(PORT, without_last_slash(port))),
        None => host_target(without_last_slash(rest), Some(PORT.default)),
    }
}

/// Where a host and a port lead; `None` stands for a port that can't be read.
fn host_target(host: &str, port: Option<u32>) -> Target
    requires { IfSome port (λ value. value < 65536) }
    ensures { result ≡ host_target host.now port }
{
    if host == "localhost" {
        return target_at(Some([127, 0, 0, 1]), port);
    }
    match four_groups(host) {
        Some(groups) => target_at(ip_of(groups), port),
        None => Target::Elsewhere,
    }
}

/// Where an address and a port lead; `None` stands for what can't be read.
fn target_at(ip: Option<[u8; 4]>, port: Option<u32>) -> Target
    requires { IfSome port (λ value. value < 65536) }
    ensures { result ≡ target_at ip port }
{
    match (ip, port) {
        (Some(ip), Some(port)) => Target::At(Address4 {
            ip,
            port: port as u16,
        }),
        _ => Target::Unreadable,
    }
}

/// Four groups of digits with dots between them; `None` exactly where a text isn't of this form.
fn four_groups(host: &str) -> Option<Groups<'_>>
    ensures { MatchOption result (four_groups host.now ≡ None) (λ g. four_groups host.now ≡ Some (record { first = g.first.now; second = g.second.now; third = g.third.now; fourth = g.fourth.now })) }
{
    let (first, rest) = parts(host, '.')?;
    let (second, rest) = parts(rest, '.')?;
    let (third, fourth) = parts(rest, '.')?;
    if is_decimal(first) && is_decimal(second) && is_decimal(third) && is_decimal(fourth) {
        Some(Groups {
            first,
            second,
            third,
            fourth,
        })
    } else {
        None
    }
}

/// The address of four groups; `None` exactly where one is above 255.
fn ip_of(groups: Groups<'_>) -> Option<[u8; 4]>
    ensures { result ≡ ip_of (record { first = groups.entry.first.now; second = groups.entry.second.now; third = groups.entry.third.now; fourth = groups.entry.fourth.now }) }
{
    let first = octet(groups.first)?;
    let second = octet(groups.second)?;
    let third = octet(groups.third)?;
    let fourth = octet(groups.fourth)?;
    Some([first, second, third, fourth])
}

/// A number of an IPv4 address.
fn octet(text: &str) -> Option<u8>
    ensures { result ≡ number octet text.now }
{
    let value = number(OCTET, text)?;
    Some(value as u8)
}

/// Whether a text is decimal digits, one or more.
fn is_decimal(text: &str) -> bool
    ensures { result ≡ is_decimal text.now }
{
    !text.is_empty() && are_digits(text.as_bytes())
}

/// Whether all bytes are decimal digits.
fn are_digits(bytes: &[u8]) -> bool
    ensures { result ≡ list_all is_ascii_digit bytes.now }
{
    bytes.iter().all(|byte| byte.is_ascii_digit())
}

/// A text without a slash at its end.
fn without_last_slash(text: &str) -> &str
    ensures { result.now ≡ without_last_slash text.now }
{
    text.strip_suffix('/').unwrap_or(text)
}
