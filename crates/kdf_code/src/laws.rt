//! Laws of the table, each the contract of a function that does nothing.
ghost use Rattle.std.specs.Prelude.{◌≡◌, ℕ, ◌<◌, Some, None};
ghost use Rattle.kdf_code.specs.Code.{bytes, code_of, host_of};
ghost use Rattle.kdf_code.specs.declared.code.TheConstants.{HOST};

/// The two ways through the table undo each other, so each code has a byte of its own.
pub fn inverse()
    ensures code { (code : ℕ) → code < 64 → code_of (host_of code) ≡ Some code }
    ensures host { (byte code : ℕ) → code_of byte ≡ Some code → host_of code ≡ byte }
    ensures below { (byte code : ℕ) → code_of byte ≡ Some code → code < 64 }
{}

/// The table of the code is that of the definition.
pub fn table()
    ensures { HOST ≡ bytes }
{}
