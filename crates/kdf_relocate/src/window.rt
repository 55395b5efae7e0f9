//! The windows of the slots.
ghost use Rattle.std.specs.Prelude.{◌≡◌, ◌==◌, ◌+◌, ◌%◌, ◌^◌, ◌<◌, ◌≤◌, if◌then◌else◌, Some, None};
ghost use Rattle.std.specs.Prelude.{All, AllPairs, IfSome, IfOk, OnOk, OnErr, sum};
ghost use Rattle.std.specs.List.{list_all};
ghost use Rattle.kdf_relocate.specs.Windows.{have_windows, windows_from, window, IsBefore, IsInStore};

use kdf_limits::{DIRECTOR_WORDS, GROUP_WORDS, PROGRAMS_WORDS};

/// The words of a slot in the store: from place `base` on, as many as `size`.
#[derive(Clone, Copy, PartialEq, Eq)]
pub struct Window {
    pub base: u32,
    pub size: u16,
}

/// The address isn't in the window.
#[derive(Clone, Copy, PartialEq, Eq)]
pub struct Outside;

impl Window {
    /// The place of the store where a word of the window lies. An address at or above the size is outside, however large the base is.
    pub fn real(&self, address: u16) -> Result<usize, Outside>
        ensures place { IfOk result (λ place. place ≡ self.now.base + address) }
        ensures inside { OnOk result (address < self.now.size) }
        ensures outside { OnErr result (self.now.size ≤ address) }
    {
        if address < self.size {
            Ok(self.base as usize + usize::from(address))
        } else {
            Err(Outside)
        }
    }

    /// The window of so many words after this one.
    fn behind(self, size: u16) -> Window
        requires { self.base + self.size < 2 ^ 32 }
        ensures { result ≡ window (self.base + self.size) size }
    {
        Window {
            base: self.base + u32::from(self.size),
            size,
        }
    }
}

/// The windows of the slots, one after the other behind the words of Director, for sizes in words; a slot that is absent has size 0.
/// None where a size isn't a number of whole groups of 32 words, or where together they are more than all programs may have.
#[tactic(auto, using(crate::proofs::Four::room_of))]
pub fn windows(sizes: &[u16; 4]) -> Option<[Window; 4]>
    ensures value { result
        ≡ (if have_windows sizes.now then Some (windows_from DIRECTOR_WORDS sizes.now) else None) }
    ensures apart { IfSome result (λ w. AllPairs IsBefore w) }
    ensures inside { IfSome result (λ w. All IsInStore w) }
{
    if have_room(sizes) {
        Some(laid(sizes))
    } else {
        None
    }
}

/// The windows of sizes that fit together.
#[tactic(auto, using(crate::proofs::Four::windows_four, crate::proofs::Four::inside_four))]
fn laid(sizes: &[u16; 4]) -> [Window; 4]
    requires { sum sizes.now ≤ PROGRAMS_WORDS }
    ensures value { result ≡ windows_from DIRECTOR_WORDS sizes.now }
    ensures apart { AllPairs IsBefore result }
    ensures inside { All IsInStore result }
{
    let [first, second, third, fourth] = *sizes;
    let first = Window {
        base: DIRECTOR_WORDS,
        size: first,
    };
    let second = first.behind(second);
    let third = second.behind(third);
    let fourth = third.behind(fourth);
    [first, second, third, fourth]
}

/// Whether the sizes are whole groups, which fit together.
#[tactic(auto, using(crate::proofs::Four::room_then, crate::proofs::Four::room_else))]
fn have_room(sizes: &[u16; 4]) -> bool
    ensures { result ≡ have_windows sizes.now }
{
    if are_whole(sizes) {
        total(sizes) <= PROGRAMS_WORDS
    } else {
        false
    }
}

/// Whether each size is a number of whole groups.
fn are_whole(sizes: &[u16; 4]) -> bool
    ensures { result ≡ list_all (λ size. size % 32 == 0) sizes.now }
{
    sizes.iter().all(|size| size % GROUP_WORDS == 0)
}

/// The words of all slots together.
fn total(sizes: &[u16; 4]) -> u32
    ensures { result ≡ sum sizes.now }
{
    let [first, second, third, fourth] = *sizes;
    u32::from(first) + u32::from(second) + u32::from(third) + u32::from(fourth)
}
