//! The numbers of devices.
ghost use Rattle.std.specs.Prelude.{◌≡◌, ◌<◌, ℕ, Bool, find, IfSome};
ghost use Rattle.std.specs.List.{range_with_len};
ghost use Rattle.kdf_processor.specs.State.{device_limit};

/// The least number of a device, 0 to 15, that passes a test.
pub fn least<F: Fn(u8) -> bool>(passes: F) -> Option<u8>
    requires { (d : ℕ) → d < device_limit → F.pre passes d }
    ensures least { (test : ℕ → Bool)
        → ((d : ℕ) (is : Bool) → d < device_limit → F.post passes d is → is ≡ test d)
        → result ≡ find test (range_with_len 0 device_limit) }
    ensures number { IfSome result (λ d. d < device_limit) }
{
    for d in 0..16u8 {
        if passes(d) {
            return Some(d);
        }
    }
    None
}
