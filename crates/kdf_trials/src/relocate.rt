//! Windows of stores that fill all there is.
use kdf_relocate::{Outside, Window, windows};

/// The windows of 8,192, of no, of 32 and of 23,520 words.
const LAID: [Window; 4] = [
    Window {
        base: 1_024,
        size: 8_192,
    },
    Window {
        base: 9_216,
        size: 0,
    },
    Window {
        base: 9_216,
        size: 32,
    },
    Window {
        base: 9_248,
        size: 23_520,
    },
];

#[test]
fn slots_and_places(rt: HostRuntime) {
    assert!(rt; windows(&[8_192, 0, 32, 23_520]) == Some(LAID));
    assert!(rt; LAID[2].real(31) == Ok(9_247));
    assert!(rt; LAID[2].real(32) == Err(Outside));
}
