//! Edits of lexed fragments and documents, one by one and as a list.
ghost use Rattle.rustc_lexer.specs.Classes.{Fits};

use crate::rows::Made;
use crate::steppers::{Characters, Counting};
use crate::tables::documents::{FRONTS, HEADS, KEPT, SPACED};
use crate::tables::edits::{CHARACTERS, LONG, Role, SHORT};
use crate::tables::row::Entry;
use rustc_lexer::{
    Edit, EditStop, Edition, LexedDocument, LexedText, Relexed, Stepper, Steps, TokenStart, fits,
};
use std::alloc::{AllocError, Global};

/// An edit and its counts, or no counts if it is rejected.
#[derive(Drop)]
struct Step {
    start: usize,
    stop: usize,
    insert: String,
    counts: Option<Relexed>,
}

impl Step {
    fn edit(&self) -> Edit<'_> {
        Edit {
            start: self.start,
            stop: self.stop,
            insert: self.insert.as_str(),
        }
    }
}

/// A text, its edits, and the text and the tokens after them.
#[derive(Drop)]
struct EditRow {
    edition: Edition,
    text: String,
    steps: Vec<Step>,
    made: Made,
}

impl EditRow {
    fn new(alloc: Global) -> EditRow {
        EditRow {
            edition: Edition::E2024,
            text: String::new(alloc),
            steps: Vec::new(alloc),
            made: Made::new(alloc),
        }
    }

    /// Adds an entry of a table. Returns whether the test case is complete.
    fn add(&mut self, entry: &Entry<Role>) -> Result<bool, AllocError> {
        match self.made.add(entry)? {
            Some(Role::Before(edition)) => {
                self.edition = edition;
                self.text = self.made.text.clone()?;
                self.steps.clear();
            }
            Some(Role::Edit(start, stop, counts)) => self.steps.push(Step {
                start,
                stop,
                insert: self.made.text.clone()?,
                counts,
            })?,
            Some(Role::After) => return Ok(true),
            None => {}
        }
        Ok(false)
    }

    /// Returns the result of the edits as a list.
    fn end(&self) -> Result<(), EditStop> {
        match self.steps.iter().position(|step| step.counts.is_none()) {
            Some(at) => Err(EditStop::Range { at }),
            None => Ok(()),
        }
    }

    /// Returns how many tokens the edits lex.
    fn lexed(&self) -> u64 {
        let mut lexed = 0u64;
        for step in self.steps.as_slice() {
            if let Some(counts) = step.counts {
                lexed = lexed.saturating_add(counts.lexed as u64);
            }
        }
        lexed
    }
}

/// Whether a text is lexed as a fragment or as a document.
#[derive(Clone, Copy)]
enum Form {
    Fragment,
    Document,
}

/// An incrementally lexed text.
#[derive(Drop)]
enum Lexed<S: Stepper> {
    Fragment(LexedText<S>),
    Document(LexedDocument<S>),
}

impl<S: Stepper> Lexed<S> {
    fn with(alloc: Global, text: &str, stepper: S, form: Form) -> Result<Lexed<S>, AllocError>
        requires { Fits text.now }
    {
        match form {
            Form::Fragment => Ok(Lexed::Fragment(LexedText::with(alloc, text, stepper)?)),
            Form::Document => Ok(Lexed::Document(LexedDocument::with(alloc, text, stepper)?)),
        }
    }

    fn stepper(&self) -> &S {
        match self {
            Lexed::Fragment(lexed) => lexed.stepper(),
            Lexed::Document(lexed) => lexed.stepper(),
        }
    }

    /// Returns whether this has the text and the tokens of `made`.
    fn is_left(&self, made: &Made) -> bool {
        let (text, tokens) = match self {
            Lexed::Fragment(lexed) => (lexed.text(), lexed.tokens()),
            Lexed::Document(lexed) => (lexed.text(), lexed.tokens()),
        };
        text == made.text.as_str() && tokens == made.tokens.as_slice()
    }

    /// Applies the edit, or returns `None` if it is not accepted.
    fn try_edit(&mut self, edit: Edit<'_>) -> Result<Option<Relexed>, AllocError> {
        let Edit {
            start,
            stop,
            insert,
        } = edit;
        match self {
            Lexed::Fragment(lexed) if lexed.accepts(start, stop, insert) => {
                Ok(Some(lexed.edit(start, stop, insert)?))
            }
            Lexed::Document(lexed) if lexed.accepts(start, stop, insert) => {
                Ok(Some(lexed.edit(start, stop, insert)?))
            }
            _ => Ok(None),
        }
    }

    fn edit_all(&mut self, edits: &[Edit<'_>]) -> Result<(), EditStop> {
        match self {
            Lexed::Fragment(lexed) => lexed.edit_all(edits),
            Lexed::Document(lexed) => lexed.edit_all(edits),
        }
    }

    /// Applies the edits one by one. Returns whether the counts of each, and the final text and tokens, are as
    /// expected.
    fn is_edited(&mut self, row: &EditRow) -> Result<bool, AllocError> {
        for step in row.steps.as_slice() {
            if self.try_edit(step.edit())? != step.counts {
                return Ok(false);
            }
        }
        Ok(self.is_left(&row.made))
    }

    /// Returns whether the edits as a list have the same result, and an empty list after them changes nothing.
    fn is_listed(&mut self, alloc: Global, row: &EditRow) -> Result<bool, AllocError> {
        let mut edits = Vec::new(alloc);
        for step in row.steps.as_slice() {
            edits.push(step.edit())?;
        }
        let end = self.edit_all(edits.as_slice());
        Ok(end == row.end() && self.is_left(&row.made) && self.is_kept(&row.made))
    }

    /// Returns whether an empty list of edits keeps this text and all tokens.
    fn is_kept(&mut self, made: &Made) -> bool {
        let all_kept = Relexed {
            kept_front: made.tokens.len(),
            lexed: 0,
            kept_back: 0,
        };
        let sequence = match self {
            Lexed::Fragment(lexed) => lexed.edit_sequence(&[]),
            Lexed::Document(lexed) => lexed.edit_sequence(&[]),
        };
        sequence == Ok(all_kept) && self.edit_all(&[]) == Ok(()) && self.is_left(made)
    }
}

impl Lexed<Steps> {
    fn edition(&self) -> Edition {
        match self {
            Lexed::Fragment(lexed) => lexed.edition(),
            Lexed::Document(lexed) => lexed.edition(),
        }
    }
}

/// The two forms of a text without a head.
static BOTH: &[Form] = &[Form::Fragment, Form::Document];

static DOCUMENT: &[Form] = &[Form::Document];

/// Returns whether the test case holds in its edition, with the edits one by one and as a list. The stepper must be
/// called once for each lexed token, except for `heads` tokens of heads.
fn holds(alloc: Global, row: &EditRow, form: Form, heads: u64) -> Result<bool, AllocError> {
    let text = row.text.as_str();
    if !fits(text) {
        return Ok(false);
    }
    let mut lexed = match form {
        Form::Fragment if row.edition == Edition::NEWEST => Lexed::Fragment(LexedText::new(
            alloc, text,
        )?),
        Form::Fragment => Lexed::Fragment(LexedText::new_in(alloc, text, row.edition)?),
        Form::Document => Lexed::Document(LexedDocument::new_in(alloc, text, row.edition)?),
    };
    if !lexed.is_edited(row)? || lexed.edition() != row.edition {
        return Ok(false);
    }
    for as_list in [false, true] {
        let mut lexed = Lexed::with(alloc, text, Counting::new_in(row.edition), form)?;
        let calls = lexed
            .stepper()
            .calls
            .saturating_add(row.lexed().saturating_sub(heads));
        let holds = if as_list {
            lexed.is_listed(alloc, row)?
        } else {
            lexed.is_edited(row)?
        };
        if !holds || lexed.stepper().calls != calls {
            return Ok(false);
        }
    }
    Ok(true)
}

#[test]
fn rows(rt: HostRuntime) -> Result<(), AllocError> {
    for (name, forms, heads, entries) in [
        ("SHORT", BOTH, 0, SHORT),
        ("LONG", BOTH, 0, LONG),
        ("KEPT", DOCUMENT, 0, KEPT),
        ("FRONTS", DOCUMENT, 1, FRONTS),
        ("SPACED", DOCUMENT, 2, SPACED),
    ] {
        let mut row = EditRow::new(rt.alloc());
        for (number, entry) in entries.iter().enumerate() {
            if row.add(entry)? {
                for form in forms {
                    let holds = holds(rt.alloc(), &row, *form, heads)?;
                    assert!(rt; holds, "{name}, up to entry {number}");
                }
            }
        }
    }
    Ok(())
}

#[test]
fn one_character_a_token(rt: HostRuntime) -> Result<(), AllocError> {
    let mut row = EditRow::new(rt.alloc());
    for entry in CHARACTERS {
        if row.add(entry)? {
            let text = row.text.as_str();
            assert!(rt; fits(text));
            for form in BOTH {
                let mut lexed = Lexed::with(rt.alloc(), text, Characters::new(), *form)?;
                assert!(rt; lexed.is_edited(&row)?);
            }
        }
    }
    Ok(())
}

#[test]
fn heads(rt: HostRuntime) -> Result<(), AllocError> {
    for (text, shebang, number, place) in HEADS {
        assert!(rt; fits(text));
        let lexed = LexedDocument::new(rt.alloc(), text)?;
        let body = TokenStart {
            index: *number,
            offset: *place,
        };
        assert!(rt;
            lexed.tokens_start() == *shebang && lexed.body_start() == body,
            "{text}"
        );
    }
    Ok(())
}
