//! Examples of the definition of configurations, checked by computation. Nothing rests on this module.

ghost use Rattle.std.specs.Prelude.{◌≡◌, [], ◌∷◌, codes, Ok, Err, Some, None, true, false, pos, negsuc};
ghost use Rattle.lload_spec.specs.Settings.{Write, BindConnection, Reject};
ghost use Rattle.lload_names.specs.declared.plans.TierKind.TheVariants.{RoundRobin, Weighted};
ghost use Rattle.lload_conf.specs.Configuration.{check_text, configuration, plain_text};
ghost use Rattle.lload_conf.specs.Settings.{config_of};

/// Texts whose first fault is in their first line, or behind it.
pub fn a_line_is_faulty()
    ensures empty { configuration [] ≡ Err (record { line = 1; kind = 10 }) }
    ensures not_text { configuration (255 ∷ []) ≡ Err (record { line = 1; kind = 1 }) }
    ensures open_quote { configuration (codes "loglevel \"a") ≡ Err (record { line = 1; kind = 2 }) }
    ensures unknown { configuration (codes "tire roundrobin\n") ≡ Err (record { line = 1; kind = 3 }) }
    ensures two_arguments { configuration (codes "tier roundrobin weighted\n") ≡ Err (record { line = 1; kind = 4 }) }
    ensures not_a_number { configuration (codes "io-threads 17\n") ≡ Err (record { line = 1; kind = 5 }) }
    ensures unknown_type { configuration (codes "tier best\n") ≡ Err (record { line = 1; kind = 6 }) }
    ensures not_a_pair { configuration (codes "bindconf tls\n") ≡ Err (record { line = 1; kind = 6 }) }
    ensures key_twice { configuration (codes "bindconf tls_cert=a TLS_CERT=b\n") ≡ Err (record { line = 1; kind = 7 }) }
    ensures feature { configuration (codes "feature proxyauthz VC\n") ≡ Err (record { line = 1; kind = 8 }) }
    ensures left_out { configuration (codes "TLSVerify a=1 a=1\n") ≡ Err (record { line = 1; kind = 8 }) }
    ensures seconds { configuration (codes "write_coherence -2147483649\n") ≡ Err (record { line = 1; kind = 5 }) }
    ensures not_an_oid { configuration (codes "restrict_exop 1..2 write\n") ≡ Err (record { line = 1; kind = 5 }) }
    ensures not_an_action { configuration (codes "restrict_control 1.2 read\n") ≡ Err (record { line = 1; kind = 6 }) }
    ensures isolated { configuration (codes "restrict_exop 1.2 isolate\n") ≡ Err (record { line = 1; kind = 8 }) }
    ensures no_tier { configuration (codes "backend-server uri=ldap://127.0.0.1\n") ≡ Err (record { line = 1; kind = 9 }) }
    ensures no_backend { configuration (codes "tier weighted") ≡ Err (record { line = 2; kind = 10 }) }
    ensures no_credentials { configuration (codes "bindconf bindmethod=simple binddn=a\n") ≡ Err (record { line = 1; kind = 11 }) }
    ensures lowest { configuration (codes "backend-server uri=ldap://h numconns=513 x=1 x=1\n") ≡ Err (record { line = 1; kind = 5 }) }
{}

/// Texts whose first fault is in a later line.
pub fn a_later_line_is_faulty()
    ensures port_zero { configuration (codes "tier roundrobin\nbackend-server uri=ldap://127.0.0.1:0\n") ≡ Err (record { line = 2; kind = 5 }) }
    ensures again { configuration (codes "iotimeout 1\nIOTimeout 1\n") ≡ Err (record { line = 2; kind = 7 }) }
    ensures restricted { configuration (codes "restrict_exop 1 write\nrestrict_control 1 write\nrestrict_exop 1 reject\n") ≡ Err (record { line = 3; kind = 7 }) }
    ensures no_uri { configuration (codes "tier roundrobin\nbackend-server weight=1\n") ≡ Err (record { line = 2; kind = 11 }) }
    ensures host { configuration (codes "tier roundrobin\nbackend-server uri=ldap://LOCALHOST\n") ≡ Err (record { line = 2; kind = 8 }) }
    ensures places { configuration (codes "tier roundrobin\nbackend-server uri=ldap://localhost bindconns=503\n") ≡ Err (record { line = 2; kind = 12 }) }
    ensures first { configuration (codes "tier a\ntier\n") ≡ Err (record { line = 1; kind = 6 }) }
{}

/// The built-in configuration, with every default.
pub fn plain_is_accepted()
    ensures { configuration plain_text ≡ Ok (record {
      proxyauthz = false;
      own_bind = None;
      timeout = 0;
      plan = record { kind = RoundRobin; backends = record { number = 1; weight = 1; numconns = 1; bindconns = 1; max_pending = 0; conn_max_pending = 0 } ∷ [] } ∷ [];
      hosts = record { address = record { ip = 127 ∷ 0 ∷ 0 ∷ 1 ∷ []; port = 389 }; retry = 5000 } ∷ [];
      client_max_pending = 0;
      client_max_unsent = 0;
      client_limit = 262143;
      upstream_limit = 4194303;
      iotimeout = 10000;
      write_coherence = pos 0;
      restrictions = record { exops = []; controls = [] };
      io_threads = 1;
    }) }
{}

/// A configuration that sets more.
pub fn settings_are_taken()
    ensures { configuration (codes "BindConf bindmethod=simple binddn=\"cn=a b\"\n\tcredentials=c=d timeout=030\nio-threads 2\nfeature ProxyAuthz\nwrite_coherence -05\nrestrict_exop 1.2 write\nrestrict_exop 1.1 Reject\nrestrict_control 2 connection\nclient_max_unsent 9\ntier weighted\nbackend-server uri=ldap://127.0.0.001:1389/ retry=7 weight=3\n") ≡ Ok (record {
      proxyauthz = true;
      own_bind = Some (record { dn = codes "cn=a b"; credentials = codes "c=d" });
      timeout = 30;
      plan = record { kind = Weighted; backends = record { number = 1; weight = 3; numconns = 10; bindconns = 10; max_pending = 0; conn_max_pending = 0 } ∷ [] } ∷ [];
      hosts = record { address = record { ip = 127 ∷ 0 ∷ 0 ∷ 1 ∷ []; port = 1389 }; retry = 7 } ∷ [];
      client_max_pending = 0;
      client_max_unsent = 9;
      client_limit = 262143;
      upstream_limit = 4194303;
      iotimeout = 10000;
      write_coherence = negsuc 4;
      restrictions = record {
        exops = record { oid = codes "1.1"; action = Reject } ∷ record { oid = codes "1.2"; action = Write } ∷ [];
        controls = record { oid = codes "2"; action = BindConnection } ∷ [];
      };
      io_threads = 2;
    }) }
{}
