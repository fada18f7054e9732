//! The statuses of calls, and the checks that return them.
ghost use Rattle.std.specs.Prelude.{◌≡◌, MatchResult};
ghost use Rattle.std.specs.Str.{IsUtf8};
ghost use Rattle.rustc_lexer.specs.Classes.{IsText};
ghost use Rattle.rustc_lexer_c.specs.Status as spec;

/// The status of a call that succeeded.
pub(crate) const OK: u32 = 0;

/// The reason why a call fails. Unless its documentation states otherwise, a failed call changes nothing.
#[derive(Clone, Copy)]
pub(crate) enum Refusal {
    /// The bytes are not UTF-8.
    NotUtf8 = 1,
    /// The text has more than `u32::MAX` bytes.
    TooLong = 2,
    /// The offset is after the end of the text, or inside a character.
    InvalidPlace = 3,
    /// Character number `prefix_len` of the text, counted from 1, is not an `r`.
    NotRaw = 4,
    /// No edition has the year.
    InvalidEdition = 5,
    /// The edit cannot have resulted in the text, or relexing cannot continue from the numbers.
    InvalidEdit = 6,
    /// No literal has the mode.
    InvalidMode = 7,
    /// No format has the number.
    InvalidFormat = 8,
    /// The buffer is too small.
    SmallBuffer = 9,
}

impl Refusal {
    /// Returns the status that C sees.
    pub(crate) fn number(self) -> u32
        ensures { result ≡ spec.refusal_number self }
    {
        self as u32
    }
}

/// Writes a result, and returns the status of success.
pub(crate) fn done<T: Copy>(answer: T, written: &mut T) -> u32
    ensures status { result ≡ 0 }
    ensures written { written.new ≡ answer }
{
    *written = answer;
    OK
}

/// Writes the value for no result, and returns the status of the failure.
pub(crate) fn refuse<T: Copy>(refusal: Refusal, none: T, written: &mut T) -> u32
    ensures status { result ≡ spec.refusal_number refusal }
    ensures written { written.new ≡ none }
{
    *written = none;
    refusal.number()
}

/// Evaluates to the text in a result. For a refusal, returns its status from the function that calls the macro, after
/// writing the value for no result, if there is one.
macro_rules! validate {
    ($text:expr) => {
        match $text {
            Ok(text) => text,
            Err(refusal) => return refusal.number(),
        }
    };
    ($text:expr, $none:expr, $written:expr) => {
        match $text {
            Ok(text) => text,
            Err(refusal) => return crate::status::refuse(refusal, $none, $written),
        }
    };
}

pub(crate) use validate;

/// Returns the bytes as a text, or the reason why they cannot be lexed.
pub(crate) fn text_of(bytes: &[u8]) -> Result<&str, Refusal>
    ensures { MatchResult result
        (λ text. (text.now ≡ bytes.now) × IsText bytes.now) (spec.IsNoText bytes.now) }
{
    if bytes.len() > u32::MAX as usize {
        return Err(Refusal::TooLong);
    }
    std::str::from_utf8(bytes).map_err(|_| Refusal::NotUtf8)
}

/// Returns the bytes as a text without checking that they are UTF-8, or the reason why they cannot be lexed.
pub(crate) fn utf8_text_of(bytes: &[u8]) -> Result<&str, Refusal>
    requires utf8 { IsUtf8 bytes.now }
    ensures { MatchResult result
        (λ text. (text.now ≡ bytes.now) × IsText bytes.now) (spec.IsNoText bytes.now) }
{
    if bytes.len() > u32::MAX as usize {
        return Err(Refusal::TooLong);
    }
    // The caller guarantees that the bytes are UTF-8.
    Ok(unsafe { std::str::from_utf8_unchecked(bytes) })
}

/// Checks whether the bytes can be lexed: whether they are UTF-8, and at most `u32::MAX` bytes. If they cannot,
/// every other function that checks its text returns the same status.
#[unsafe(no_mangle)]
pub extern "C" fn rustc_lexer_check(text: &[u8]) -> u32
    ensures { spec.IsTextStatus text.now result }
{
    validate!(text_of(text));
    OK
}
