use crate::reason::Reason;

/// A directive of OpenLDAP's that is left out, why, and what to do.
type LeftOut = (&'static str, &'static str, &'static str);

const REMOVE: &str = "remove the line";

/// Directives of OpenLDAP 2.6, lloadd.conf(5) and slapd.conf(5), and what comes of leaving each out.
const LEFT_OUT: [LeftOut; 28] = [
    (
        "include",
        "left out here: a configuration is one file",
        "put what the other file has into this one",
    ),
    (
        "listen",
        "left out here: the addresses that clients are listened to at aren't a matter of this file",
        REMOVE,
    ),
    ("moduleload", "left out here: there are no modules", REMOVE),
    ("modulepath", "left out here: there are no modules", REMOVE),
    (
        "database",
        "left out here: the proxy has no databases",
        REMOVE,
    ),
    (
        "backend",
        "left out here: the proxy isn't a module of slapd",
        "remove the line; a server is named by backend-server",
    ),
    (
        "logfile",
        "OpenLDAP's, left out here: no log is written",
        REMOVE,
    ),
    (
        "logfile-format",
        "OpenLDAP's, left out here: no log is written",
        REMOVE,
    ),
    (
        "logfile-only",
        "OpenLDAP's, left out here: no log is written",
        REMOVE,
    ),
    (
        "logfile-rotate",
        "OpenLDAP's, left out here: no log is written",
        REMOVE,
    ),
    (
        "threadqueues",
        "OpenLDAP's, left out here: threads share no queues",
        "remove the line; io-threads alone says how many threads there are",
    ),
    (
        "tcp-buffer",
        "OpenLDAP's, left out here: connections have the buffers of the operating system",
        REMOVE,
    ),
    (
        "idletimeout",
        "OpenLDAP's, left out here: a client that asks nothing isn't closed",
        REMOVE,
    ),
    (
        "gentlehup",
        "OpenLDAP's, left out here: no signals are taken",
        REMOVE,
    ),
    (
        "listener-threads",
        "OpenLDAP's, left out here: one thread takes clients in",
        REMOVE,
    ),
    (
        "sockbuf_max_incoming",
        "OpenLDAP's slapd has it: the limit has other names here",
        "write sockbuf_max_incoming_client or sockbuf_max_incoming_upstream",
    ),
    (
        "sockbuf_max_incoming_auth",
        "OpenLDAP's slapd has it: one limit holds for all clients",
        "write sockbuf_max_incoming_client",
    ),
    (
        "security",
        "OpenLDAP's, left out here: nothing is encrypted, so no strength can be asked for",
        REMOVE,
    ),
    (
        "sasl-secprops",
        "OpenLDAP's, left out here: there is no SASL of the proxy's own",
        REMOVE,
    ),
    (
        "sasl-host",
        "OpenLDAP's, left out here: there is no SASL of the proxy's own",
        REMOVE,
    ),
    (
        "sasl-realm",
        "OpenLDAP's, left out here: there is no SASL of the proxy's own",
        REMOVE,
    ),
    (
        "access",
        "OpenLDAP's slapd has it: access is a matter of the servers",
        REMOVE,
    ),
    (
        "overlay",
        "OpenLDAP's slapd has it: the proxy has no databases",
        REMOVE,
    ),
    (
        "suffix",
        "OpenLDAP's slapd has it: the proxy has no databases",
        REMOVE,
    ),
    (
        "rootdn",
        "OpenLDAP's slapd has it: the proxy has no databases",
        "remove the line; the proxy's own name is the binddn of bindconf",
    ),
    (
        "rootpw",
        "OpenLDAP's slapd has it: the proxy has no databases",
        "remove the line; the proxy's own password is the credentials of bindconf",
    ),
    (
        "sizelimit",
        "OpenLDAP's slapd has it: limits of a search are a matter of the servers",
        REMOVE,
    ),
    (
        "timelimit",
        "OpenLDAP's slapd has it: limits of a search are a matter of the servers",
        "remove the line; bindconf has a timeout for operations",
    ),
];

/// Why a directive of OpenLDAP's isn't taken; `None` where its name isn't among those above.
pub fn reason_named(name: &str) -> Option<Reason> {
    for (known, wrong, remedy) in LEFT_OUT {
        if name.eq_ignore_ascii_case(known) {
            return Some(Reason::new(wrong, remedy));
        }
    }
    None
}
