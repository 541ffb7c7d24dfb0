//! Examples of the definition of lines and words, checked by computation. Nothing rests on this module.

ghost use Rattle.std.specs.Prelude.{◌≡◌, ◌++◌, [], ◌∷◌, codes};
ghost use Rattle.conf_words.specs.Lines.{conf_lines, line_count};
ghost use Rattle.conf_words.specs.Examples.{faulty, worded};

/// Physical lines: their ends and their count.
pub fn physical_lines_end()
    ensures empty { conf_lines [] ≡ [] }
    ensures empty_count { line_count [] ≡ 0 }
    ensures last_lacks_its_end { conf_lines (codes "io-threads 2") ≡ worded 1 (codes "io-threads" ∷ codes "2" ∷ []) ∷ [] }
    ensures carriage_return { conf_lines (codes "io-threads 2" ++ 13 ∷ 10 ∷ []) ≡ worded 1 (codes "io-threads" ∷ codes "2" ∷ []) ∷ [] }
    ensures return_inside { conf_lines (codes "io-threads " ++ 13 ∷ codes "2\n") ≡ worded 1 (codes "io-threads" ∷ (13 ∷ codes "2") ∷ []) ∷ [] }
    ensures return_at_the_end { conf_lines (codes "tier" ++ 13 ∷ []) ≡ worded 1 ((codes "tier" ++ 13 ∷ []) ∷ []) ∷ [] }
    ensures count { line_count (codes "a\n\nb") ≡ 3 }
    ensures count_with_end { line_count (codes "a\n\nb\n") ≡ 3 }
{}

/// Lines that are joined, and lines that end the one before.
pub fn lines_are_joined()
    ensures continued { conf_lines (codes "bindconf bindmethod=simple binddn=\"cn=proxy,dc=example,dc=com\"\n\tcredentials=secret timeout=30 network-timeout=5\nio-threads 2\n") ≡ worded 1 (codes "bindconf" ∷ codes "bindmethod=simple" ∷ codes "binddn=cn=proxy,dc=example,dc=com" ∷ codes "credentials=secret" ∷ codes "timeout=30" ∷ codes "network-timeout=5" ∷ []) ∷ worded 3 (codes "io-threads" ∷ codes "2" ∷ []) ∷ [] }
    ensures joined_by_one_space { conf_lines (codes "tier \"a\n \t b\"") ≡ worded 1 (codes "tier" ∷ codes "a b" ∷ []) ∷ [] }
    ensures blank_ends_a_line { conf_lines (codes "tier\n\n weighted") ≡ worded 1 (codes "tier" ∷ []) ∷ worded 3 (codes "weighted" ∷ []) ∷ [] }
    ensures spaces_are_blank { conf_lines (codes "tier\n \t \n weighted") ≡ worded 1 (codes "tier" ∷ []) ∷ worded 3 (codes "weighted" ∷ []) ∷ [] }
    ensures nothing_before { conf_lines (codes " # tier") ≡ worded 1 (codes "#" ∷ codes "tier" ∷ []) ∷ [] }
{}

/// Comments, with their continuations.
pub fn comments_are_left_out()
    ensures alone { conf_lines (codes "# front\n#\n") ≡ [] }
    ensures continued { conf_lines (codes "# a \"quote\n  tier bestof\ntier weighted") ≡ worded 3 (codes "tier" ∷ codes "weighted" ∷ []) ∷ [] }
    ensures ended { conf_lines (codes "# front\n\n  tier bestof") ≡ worded 3 (codes "tier" ∷ codes "bestof" ∷ []) ∷ [] }
    ensures not_utf8 { conf_lines (35 ∷ 255 ∷ []) ≡ [] }
    ensures within_a_line { conf_lines (codes "tier #weighted") ≡ worded 1 (codes "tier" ∷ codes "#weighted" ∷ []) ∷ [] }
{}

/// Quotes and backslashes.
pub fn words_are_quoted()
    ensures quoted { conf_lines (codes "a \"b \tc\"d") ≡ worded 1 (codes "a" ∷ codes "b \tcd" ∷ []) ∷ [] }
    ensures within_a_word { conf_lines (codes "binddn=\"cn=a b\"") ≡ worded 1 (codes "binddn=cn=a b" ∷ []) ∷ [] }
    ensures empty_word { conf_lines (codes "a \"\" b") ≡ worded 1 (codes "a" ∷ [] ∷ codes "b" ∷ []) ∷ [] }
    ensures escaped { conf_lines (codes "\\\"a \\\\b") ≡ worded 1 (codes "\"a" ∷ codes "\\b" ∷ []) ∷ [] }
    ensures backslash_stays { conf_lines (codes "a\\b \\ c\\") ≡ worded 1 (codes "a\\b" ∷ codes "\\" ∷ codes "c\\" ∷ []) ∷ [] }
    ensures escaped_within_quotes { conf_lines (codes "\"a\\\" b\"") ≡ worded 1 (codes "a\" b" ∷ []) ∷ [] }
    ensures umlaut { conf_lines (195 ∷ 164 ∷ []) ≡ worded 1 ((195 ∷ 164 ∷ []) ∷ []) ∷ [] }
{}

/// Faults.
pub fn lines_are_faulty()
    ensures not_utf8 { conf_lines (codes "tier\na" ++ 255 ∷ []) ≡ worded 1 (codes "tier" ∷ []) ∷ faulty 2 1 ∷ [] }
    ensures not_utf8_and_open { conf_lines (34 ∷ 255 ∷ []) ≡ faulty 1 1 ∷ [] }
    ensures open_quote { conf_lines (codes "a \"b") ≡ faulty 1 2 ∷ [] }
    ensures blank_within_quotes { conf_lines (codes "a \"b\n\n c\"") ≡ faulty 1 2 ∷ faulty 3 2 ∷ [] }
    ensures escaped_quote_does_not_close { conf_lines (codes "a \"b\\\"") ≡ faulty 1 2 ∷ [] }
{}
