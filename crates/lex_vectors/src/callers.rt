//! The callers in `examples`, on hand-written texts.
use examples::comments::skip_comments;
use examples::counting::count_tokens;
use examples::repaint::{edit_shown, repaint};
use rustc_lexer::{LexedText, Relexed, fits};

/// Texts, and the rest of each after its leading comments.
static COMMENTS: &[(&str, &str)] = &[("// a\n/* b */ c // d", "c // d"), ("//! a", ""), ("", "")];

#[test]
fn comments(rt: HostRuntime) {
    for (text, wanted) in COMMENTS {
        assert!(rt; fits(text) && skip_comments(text) == *wanted, "at {text}");
    }
}

#[test]
fn counted_tokens(rt: HostRuntime) {
    let text = "---\n---\nfn a";
    assert!(rt; fits(text) && count_tokens(text) == 5);
}

#[test]
fn paint_after_an_edit(rt: HostRuntime) {
    let text = "let ab = cd + ef;";
    let insert = "/**/1";
    assert!(rt; fits(text));
    let mut lexed = LexedText::new(rt.alloc(), text).expect(&rt, "memory");
    assert!(rt; lexed.accepts(12, 13, insert));
    let relexed = edit_shown(&mut lexed, 12, 13, insert).expect(&rt, "memory");
    let want = Relexed {
        kept_front: 6,
        lexed: 4,
        kept_back: 3,
    };
    let mut written = String::new(rt.alloc());
    let is_done = relexed == want && repaint(&lexed, relexed, &mut written).is_ok();
    assert!(rt; is_done && written.as_str() == "cd \x1b[2m/**/\x1b[0m\x1b[32m1\x1b[0m");
}
