//! The ABI number of the library.
ghost use Rattle.std.specs.Prelude.{◌≡◌};

/// Returns the ABI number, which is also part of the function's name. It increases with each change that would break a
/// program built with an earlier header, so linking such a program fails.
#[unsafe(no_mangle)]
pub extern "C" fn rustc_lexer_abi_1() -> u32
    ensures { result ≡ 1 }
{
    1
}
