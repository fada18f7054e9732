//! Shebang lines.

/// Texts, and the lengths of their shebang lines.
pub(crate) static ROWS: &[(&str, Option<usize>)] = &[
    // The texts of the tests of `rustc_lexer`.
    ("#!/bin/bash", Some(11)),
    ("#!    /bin/bash", Some(15)),
    ("#! /* blah */  /bin/bash", Some(24)),
    ("#! // blah\n/bin/bash", Some(10)),
    ("#! /* blah\nblah\nblah */  /bin/bash", Some(10)),
    ("#!\n/bin/sh", Some(2)),
    ("#![attribute]", None),
    ("#!    [attribute]", None),
    ("#! /* blah */  [attribute]", None),
    ("#! // blah\n[attribute]", None),
    ("#! /* blah\nblah\nblah */  [attribute]", None),
    ("#!\n[attribute]", None),
    ("\n#!/bin/bash", None),
    ("\n#![attribute]", None),
    // The text must start with `#!`.
    ("", None),
    ("#", None),
    ("fn", None),
    ("# !/bin/sh", None),
    ("\u{feff}#!/bin/sh", None),
    // The end of its line.
    ("#!/bin/sh\nfn", Some(9)),
    ("#!", Some(2)),
    ("#!\n", Some(2)),
    ("#! \n \n", Some(3)),
    ("#!é\né", Some(4)),
    ("#!/x\r\n[a", Some(4)),
    ("#!\r\nx", Some(2)),
    ("#!x\r\r\n", Some(4)),
    ("#!a\rb\r\nc", Some(5)),
    ("#!a\r", Some(4)),
    // Comments before a bracket: all except doc comments are skipped.
    ("#!///x\n[a]", Some(6)),
    ("#!//!x\n[a]", Some(6)),
    ("#!/**x*/[a]", Some(11)),
    ("#!/*!x*/\n[a]", Some(8)),
    ("#!////x\n[a]", None),
    ("#!/***/[a]", None),
    ("#!/**/[a]", None),
    ("#!/* /* */ */[a]", None),
    // An unterminated block comment includes the bracket.
    ("#!/* a\n[b]", Some(6)),
    ("#!/* [", Some(6)),
    // Other tokens, whitespace outside ASCII, and characters that are not whitespace.
    ("#!]", Some(3)),
    ("#!\"[", Some(4)),
    ("#!\r\n[a]", None),
    ("#!\u{2028}[a]", None),
    ("#!\u{a0}[a]", Some(7)),
];
