//! Strings, characters and bytes, and lifetimes.
use crate::tables::kinds::*;
use crate::tables::row::*;
use rustc_lexer::LiteralKind::*;
use rustc_lexer::TokenKind::*;

pub(crate) static STRINGS: &[Entry<Ways>] = rows! {
    PLAIN:
    r#""""# => [literal!(STR, 2)],
    r#""a"b"# => [literal!(STR, 3, 4)],
    r#""é"é"# => [literal!(STR, 4, 6)],
    "\"a\nb\"" => [literal!(STR, 5)],
    r#""/*""# => [literal!(STR, 4)],
    r#"b"a"x"# => [literal!(ByteStr { terminated: true }, 4, 5)],
    r#"c"a"_x"# => [literal!(CStr { terminated: true }, 4, 6)],
    // A quote after an odd number of backslashes does not close the string.
    r#""a\"b"c"# => [literal!(STR, 6, 7)],
    r#""a\\"b"# => [literal!(STR, 5, 6)],
    r#""\""# => [literal!(OPEN_STR, 3)],
    r#""\\""# => [literal!(STR, 4)],
    r#""\\\""# => [literal!(OPEN_STR, 5)],
    r#"b"a\"""# => [literal!(ByteStr { terminated: true }, 6)],
    r#"c"a\"""# => [literal!(CStr { terminated: true }, 6)],
    // Unterminated.
    r#"""# => [literal!(OPEN_STR, 1)],
    r#""\"# => [literal!(OPEN_STR, 2)],
    "\"\0" => [literal!(OPEN_STR, 2)],
    r#"b""# => [literal!(ByteStr { terminated: false }, 2)],
    r#"b"a"# => [literal!(ByteStr { terminated: false }, 3)],
    r#"c""# => [literal!(CStr { terminated: false }, 2)],
    // Characters that start no suffix.
    r#""a""b""# => [literal!(STR, 3), literal!(STR, 3)],
    r#""a"'b'"# => [literal!(STR, 3), literal!(CHAR, 3)],
    r#""a"1"# => [literal!(STR, 3), literal!(INT, 1)],
    "\"a\"#" => [literal!(STR, 3), (Pound, 1)],
    r#""a"😀"# => [literal!(STR, 3), (InvalidIdent, 4)],
    r#""a" b"# => [literal!(STR, 3), (Whitespace, 1), (Ident, 1)],
};

pub(crate) static CHARACTERS: &[Entry<Ways>] = rows! {
    PLAIN:
    "'é'" => [literal!(CHAR, 4)],
    "'\u{2139}'" => [literal!(CHAR, 5)],
    "'\u{2139}'#" => [literal!(CHAR, 5), (Pound, 1)],
    "'\u{200d}'" => [literal!(CHAR, 5)],
    "'\0'" => [literal!(CHAR, 3)],
    "'/'" => [literal!(CHAR, 3)],
    "'\n'" => [literal!(CHAR, 3)],
    "'''" => [literal!(CHAR, 3)],
    "''" => [literal!(CHAR, 2)],
    "''a" => [literal!(CHAR, 2, 3)],
    "''''" => [literal!(CHAR, 3), literal!(OPEN_CHAR, 1)],
    r#"'"'""# => [literal!(CHAR, 3), literal!(OPEN_STR, 1)],
    "'a'b" => [literal!(CHAR, 3, 4)],
    // Escapes.
    r"'\''" => [literal!(CHAR, 4)],
    r"'\\'" => [literal!(CHAR, 4)],
    r"'\/'" => [literal!(CHAR, 4)],
    r"'(\/'" => [literal!(CHAR, 5)],
    "'\\\n'" => [literal!(CHAR, 4)],
    r"'\u{2139}'#" => [literal!(CHAR, 10), (Pound, 1)],
    // More than one character.
    "'  '" => [literal!(CHAR, 4)],
    "'(\0'" => [literal!(CHAR, 4)],
    "'(\n'" => [literal!(CHAR, 4)],
    "'12'" => [literal!(CHAR, 4)],
    "'éa'" => [literal!(CHAR, 5)],
    "'a😀'" => [literal!(CHAR, 7)],
    "'ab'x" => [literal!(CHAR, 4), (Ident, 1)],
    // Unterminated.
    "'" => [literal!(OPEN_CHAR, 1)],
    r"'\" => [literal!(OPEN_CHAR, 2)],
    r"'\'" => [literal!(OPEN_CHAR, 3)],
    "'\\\nx" => [literal!(OPEN_CHAR, 4)],
    "'\0" => [literal!(OPEN_CHAR, 2)],
    "'\u{200d}" => [literal!(OPEN_CHAR, 4)],
    "' a" => [literal!(OPEN_CHAR, 3)],
    // A slash or the end of a line ends them.
    "'\n" => [literal!(OPEN_CHAR, 1), (Whitespace, 1)],
    "'\nx" => [literal!(OPEN_CHAR, 1), (Whitespace, 1), (Ident, 1)],
    "'(\nx" => [literal!(OPEN_CHAR, 2), (Whitespace, 1), (Ident, 1)],
    "'/" => [literal!(OPEN_CHAR, 1), (Slash, 1)],
    "'//" => [literal!(OPEN_CHAR, 1), (LINE, 2)],
    "'/x'" => [literal!(OPEN_CHAR, 1), (Slash, 1), (UnknownPrefix, 1), literal!(OPEN_CHAR, 1)],
    "' a/b'" => [literal!(OPEN_CHAR, 3), (Slash, 1), literal!(Byte { terminated: false }, 2)],
};

pub(crate) static BYTES: &[Entry<Ways>] = rows! {
    PLAIN:
    "b'a'" => [literal!(Byte { terminated: true }, 4)],
    "b''" => [literal!(Byte { terminated: true }, 3)],
    "b'''" => [literal!(Byte { terminated: true }, 4)],
    r"b'\''" => [literal!(Byte { terminated: true }, 5)],
    "b'a'u8" => [literal!(Byte { terminated: true }, 4, 6)],
    "b'ab'c" => [literal!(Byte { terminated: true }, 5, 6)],
    "b'" => [literal!(Byte { terminated: false }, 2)],
    "b'a" => [literal!(Byte { terminated: false }, 3)],
    "b'a b" => [literal!(Byte { terminated: false }, 5)],
    "b'a\nb" => [literal!(Byte { terminated: false }, 3), (Whitespace, 1), (Ident, 1)],
    "c'a'" => [(UnknownPrefix, 1), literal!(CHAR, 3)],
};

pub(crate) static LIFETIMES: &[Entry<Ways>] = rows! {
    PLAIN:
    "'a" => [(LIFETIME, 2)],
    "'_" => [(LIFETIME, 2)],
    "'é" => [(LIFETIME, 3)],
    "'a\u{200d}" => [(LIFETIME, 5)],
    "'static " => [(LIFETIME, 7), (Whitespace, 1)],
    "'a 'b" => [(LIFETIME, 2), (Whitespace, 1), (LIFETIME, 2)],
    r#"'a"b""# => [(LIFETIME, 2), literal!(STR, 3)],
    "'a/b'" => [(LIFETIME, 2), (Slash, 1), literal!(Byte { terminated: false }, 2)],
    // Digits and emoji.
    "'1" => [(BAD_LIFETIME, 2)],
    "'1a" => [(BAD_LIFETIME, 3)],
    "'1#" => [(BAD_LIFETIME, 2), (Pound, 1)],
    "'😀" => [(BAD_LIFETIME, 5)],
    "'a😀" => [(BAD_LIFETIME, 6)],
    "'\u{2139}" => [(BAD_LIFETIME, 4)],
    "'\u{2139}😀" => [(BAD_LIFETIME, 8)],
    // Prefixes, and raw lifetimes.
    "'a#" => [(UnknownPrefixLifetime, 2), (Pound, 1)],
    "'😀#" => [(UnknownPrefixLifetime, 5), (Pound, 1)],
    "'\u{2139}#" => [(UnknownPrefixLifetime, 4), (Pound, 1)],
    "'k#a" => [(UnknownPrefixLifetime, 2), (Pound, 1), (Ident, 1)],
    "'rr#a" => [(UnknownPrefixLifetime, 3), (Pound, 1), (Ident, 1)],
    "'r#" => [(UnknownPrefixLifetime, 2), (Pound, 1)],
    "'r# " => [(UnknownPrefixLifetime, 2), (Pound, 1), (Whitespace, 1)],
    "'r#1" => [(UnknownPrefixLifetime, 2), (Pound, 1), literal!(INT, 1)],
    "'r#_" => [(RawLifetime, 4)],
    "'r#foo" => [(RawLifetime, 6)],
    "'r#a😀" => [(RawLifetime, 4), (InvalidIdent, 4)],
    "'r#a'" => [(RawLifetime, 4), literal!(OPEN_CHAR, 1)],
    r#"'r#r"x""# => [(RawLifetime, 4), literal!(STR, 3)],
    "'r'" => [literal!(CHAR, 3)],
};
