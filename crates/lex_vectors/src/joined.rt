//! Texts that are joined from pieces.
use rustc_lexer::{Edition, JoinError, JoinedText, fits, is_token_boundary};

/// A step of a test case.
#[derive(Clone, Copy)]
enum Step {
    /// Starts a new text in an edition.
    New(Edition),
    Pushed(&'static str),
    Refused(&'static str),
    Made(&'static str),
}

/// Test cases: an edition, pieces to push, possibly a piece that is then rejected, and the resulting text.
macro_rules! joined {
    ($($edition:ident: $($piece:literal),+ $(, !$refused:literal)? => $made:literal;)*) => {
        &[$(
            Step::New(Edition::$edition),
            $(Step::Pushed($piece),)+
            $(Step::Refused($refused),)?
            Step::Made($made),
        )*]
    };
}

static ROWS: &[Step] = joined! {
    E2024: "fn", "main", "(", ")", "{", "}" => "fn main(){}";
    E2024: "a", "", " ", "b" => "a b";
    E2024: "a", " ", !" b" => "a ";
    E2024: "a", " ", !"\u{2028}" => "a ";
    // A line comment needs a newline after it.
    E2024: "// a", "b" => "// a\nb";
    E2024: "// a", !" b" => "// a";
    E2024: "// a", !"\r\n" => "// a";
    E2024: "// a", "\n", "b" => "// a\nb";
    E2024: "/", "// a" => "/ // a";
    // Whether a dot becomes part of a number.
    E2024: "1", ".", "." => "1 ..";
    E2024: "1", "..", "2" => "1..2";
    E2024: "1.", "max" => "1. max";
    E2024: "\"a\"", "s" => "\"a\" s";
    E2024: "r", "\"a\"" => "r \"a\"";
    // The separator can depend on the edition.
    E2021: "#", "\"a\"" => "#\"a\"";
    E2024: "#", "\"a\"" => "# \"a\"";
    E2018: "z", "\"a\"" => "z\"a\"";
    E2021: "z", "\"a\"" => "z \"a\"";
    E2018: "'a", "#", "b" => "'a#b";
    E2021: "'a", "#", "b" => "'a #b";
    // The token before the last one decides.
    E2018: "k", "#", "a" => "k# a";
    E2021: "k", "#", "a" => "k #a";
    E2024: "'", "/", "'a'" => "'/ 'a'";
    // Unterminated tokens.
    E2024: "\"a", !"b" => "\"a";
    E2024: "/* a", !"b" => "/* a";
    E2024: "r#\"a", "", !"\"#" => "r#\"a";
    E2024: "br##", !"\"" => "br##";
    E2024: "r#~", "a" => "r#~a";
    E2024: "'+", "b" => "'+\nb";
    E2024: "'+", !"'b'" => "'+";
};

#[test]
fn rows(rt: HostRuntime) {
    let mut text = JoinedText::new(rt.alloc(), Edition::E2024);
    for step in ROWS {
        match step {
            Step::New(edition) => text = JoinedText::new(rt.alloc(), *edition),
            Step::Pushed(piece) => {
                assert!(rt; text.push(piece).is_ok(), "{piece}");
            }
            Step::Refused(piece) => {
                assert!(rt; text.push(piece) == Err(JoinError::Inseparable), "{piece}");
            }
            Step::Made(made) => {
                assert!(rt; text.as_str() == *made, "{made}");
            }
        }
    }
}

/// Returns whether the text splits at this offset without changing tokens.
fn touch(text: &str, at: usize, edition: Edition) -> bool {
    fits(text) && text.is_char_boundary(at) && is_token_boundary(text, at, edition)
}

#[test]
fn boundaries(rt: HostRuntime) {
    assert!(rt;
        touch("", 0, Edition::E2015)
            && touch("a+b", 1, Edition::E2024)
            && !touch("ab", 1, Edition::E2024)
    );
    assert!(rt; touch("0..2", 1, Edition::E2021) && !touch("0..2", 2, Edition::E2021));
    assert!(rt; touch("z\"a\"", 1, Edition::E2018) && !touch("z\"a\"", 1, Edition::E2021));
    assert!(rt; touch("'a#b", 2, Edition::E2018) && !touch("'a#b", 2, Edition::E2021));
}
