use crate::dictionary::reason_named;
use crate::reason::Reason;
use lload_conf::{Arguments, Takes, directive_named, wanted_of};
use lload_names::Word;

/// Kind 8: why what stands in a line is left out.
pub fn left_out(directive: &str, word: &Word) -> Reason {
    match directive_named(directive) {
        Some((_, Arguments::Restriction)) => Reason::new(
            "left out here: a client isn't kept apart from others",
            "write connection, or another action",
        ),
        Some((_, Arguments::Unread)) | None => left_out_directive(directive),
        Some(_) => match wanted_of(directive, word) {
            Some((Takes::Uri, uri)) => left_out_uri(uri),
            Some((Takes::Method, method)) => left_out_method(method),
            Some((Takes::Feature, _)) => Reason::new(
                "left out here: credentials aren't verified for others",
                "remove the feature",
            ),
            _ => left_out_key(word.as_str()),
        },
    }
}

/// Why a directive is left out.
fn left_out_directive(name: &str) -> Reason {
    match reason_named(name) {
        Some(reason) => reason,
        None => Reason::new(
            "left out here: there is no TLS, and all traffic is in the clear",
            "remove the line, but only where the traffic may be in the clear",
        ),
    }
}

/// Why the address of a backend is of a form that is left out.
fn left_out_uri(uri: &str) -> Reason {
    if uri.starts_with("ldaps://") {
        return Reason::new(
            "left out here: there is no TLS to a server",
            "write ldap://, but only where the traffic may be in the clear",
        );
    }
    if uri.starts_with("ldapi://") {
        return Reason::new(
            "left out here: a server isn't reached by a socket of the file system",
            "write ldap://127.0.0.1 and its port",
        );
    }
    let Some(host) = uri.strip_prefix("ldap://") else {
        return Reason::new(
            "this isn't the address of a server",
            "write ldap://, four numbers with dots, and a colon and a port where it isn't 389",
        );
    };
    match host.as_bytes() {
        [b'[', ..] => Reason::new(
            "left out here: addresses of IPv6",
            "write the four numbers of an address of IPv4",
        ),
        [letter, ..] if letter.is_ascii_alphabetic() => Reason::new(
            "left out here: the name of a host isn't looked up",
            "write the four numbers of its address",
        ),
        _ => Reason::new(
            "this isn't the address of a server",
            "write ldap://, four numbers with dots, and a colon and a port where it isn't 389",
        ),
    }
}

/// Why a way for the proxy to bind itself is left out.
fn left_out_method(method: &str) -> Reason {
    if method.eq_ignore_ascii_case("simple") {
        return Reason::new("values have regard to capitals", "write bindmethod=simple");
    }
    Reason::new(
        "left out here: the proxy binds by name and password alone",
        "write bindmethod=simple, with binddn and credentials",
    )
}

/// Why a key is left out.
fn left_out_key(word: &str) -> Reason {
    if is_of_tls(word) {
        return Reason::new(
            "left out here: there is no TLS to a server",
            "remove the key, but only where the traffic may be in the clear",
        );
    }
    Reason::new(
        "left out here: the proxy binds by name and password alone, without SASL",
        "remove the key",
    )
}

/// Whether a key with its value is one of TLS.
fn is_of_tls(word: &str) -> bool {
    let Some((key, _)) = word.split_once('=') else {
        return false;
    };
    match key.as_bytes() {
        [t, l, s, ..] if [*t, *l, *s].eq_ignore_ascii_case(b"tls") => true,
        _ => key.eq_ignore_ascii_case("starttls"),
    }
}
