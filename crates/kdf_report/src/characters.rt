//! Characters, as the host has them.
ghost use Rattle.std.specs.Prelude.{◌≡◌, ◌<◌, ◌++◌, [], ◌∷◌, All, OnOk, map, string_bytes};
ghost use Rattle.kdf_code.specs.Code.{host_of};

use kdf_code::to_host;
use std::alloc::AllocError;

/// Writes the characters of these codes, each below 64.
pub fn write_characters(out: &mut String, codes: &[u8]) -> Result<(), AllocError>
    requires { All (λ code. code < 64) codes.now }
    ensures { OnOk result (string_bytes out.new ≡ string_bytes out.old ++ map host_of codes.now) }
{
    for code in codes {
        write_character(out, *code)?;
    }
    Ok(())
}

fn write_character(out: &mut String, code: u8) -> Result<(), AllocError>
    requires { code < 64 }
    ensures { OnOk result (string_bytes out.new ≡ string_bytes out.old ++ host_of code ∷ []) }
{
    out.push(char::from(to_host(code)))
}
