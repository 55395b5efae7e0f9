//! The table of characters, read both ways.
ghost use Rattle.std.specs.Prelude.{◌≡◌, ◌<◌, IfSome};
ghost use Rattle.kdf_code.specs.Code.{code_of, host_of};

/// The host's bytes of the codes, a row for each first octal digit of a code.
///
/// Codes 2, 3 and 4 are the machine's new line, new page and tab, code 75 octal is End Message.
const HOST: [u8; 64] = *b" \"~^_?%'\
    :=()$*,/\
    01234567\
    89`;+-.!\
    @ABCDEFG\
    HIJKLMNO\
    PQRSTUVW\
    XYZ[]|<>";

/// What stands in `CODES` where a byte has no code: the first number that is none.
const OFF: u8 = 64;

/// The codes of the bytes below 128. Each is the place of its byte in `HOST`.
const CODES: [u8; 128] = [
    OFF, OFF, OFF, OFF, OFF, OFF, OFF, OFF, OFF, OFF, OFF, OFF, OFF, OFF, OFF, OFF, OFF, OFF, OFF,
    OFF, OFF, OFF, OFF, OFF, OFF, OFF, OFF, OFF, OFF, OFF, OFF, OFF, 0o00, 0o37, 0o01, OFF, 0o14,
    0o06, OFF, 0o07, 0o12, 0o13, 0o15, 0o34, 0o16, 0o35, 0o36, 0o17, 0o20, 0o21, 0o22, 0o23, 0o24,
    0o25, 0o26, 0o27, 0o30, 0o31, 0o10, 0o33, 0o76, 0o11, 0o77, 0o05, 0o40, 0o41, 0o42, 0o43, 0o44,
    0o45, 0o46, 0o47, 0o50, 0o51, 0o52, 0o53, 0o54, 0o55, 0o56, 0o57, 0o60, 0o61, 0o62, 0o63, 0o64,
    0o65, 0o66, 0o67, 0o70, 0o71, 0o72, 0o73, OFF, 0o74, 0o03, 0o04, 0o32, OFF, OFF, OFF, OFF, OFF,
    OFF, OFF, OFF, OFF, OFF, OFF, OFF, OFF, OFF, OFF, OFF, OFF, OFF, OFF, OFF, OFF, OFF, OFF, OFF,
    OFF, OFF, OFF, 0o75, OFF, 0o02, OFF,
];

/// The code, from 0 to 63, of a byte of the host. None where the byte isn't in the table of
/// characters, as for small letters and everything from 128 up.
pub fn to_code(byte: u8) -> Option<u8>
    ensures value { result ≡ code_of byte }
    ensures below { IfSome result (λ code. code < 64) }
{
    let code = CODES.get(usize::from(byte)).copied().unwrap_or(OFF);
    (code != OFF).then_some(code)
}

/// The host's byte of a code from 0 to 63, an ASCII character that prints or a space.
pub fn to_host(code: u8) -> u8
    requires { code < 64 }
    ensures value { result ≡ host_of code }
    ensures ascii { result < 128 }
{
    HOST[usize::from(code)]
}
