//! The store as it is loaded.
ghost use Rattle.std.specs.Prelude.{◌≡◌, ◌+◌, ◌<◌, ◌≤◌, length, map, All, IfOk};
ghost use Rattle.kdf_yard.specs.declared.slot.Loaded.{Loaded};
ghost use Rattle.kdf_yard.specs.Fields.Filled.{kept_word, loaded, with_images, with_words, zero_cells};
ghost use Rattle.kdf_yard.specs.Fields.Parts.{window_at};

use crate::Loaded;
use crate::dispatch::window_of;
use kdf_limits::{STORE_GROUPS, STORE_WORDS};
use kdf_lockout::Store;
use kdf_relocate::Window;
use kdf_word::Word;
use std::alloc::{AllocError, Global};

/// A store with the words of each slot from the begin of its window on, and zeros else.
pub(crate) fn filled_store(
    alloc: Global,
    windows: &[Window; 4],
    slots: &[Loaded],
) -> Result<Store, AllocError>
    requires { All (λ (l : Loaded). (window_at windows.now l.p).base + length l.words.items ≤ STORE_WORDS) slots.now }
    ensures { IfOk result (λ s. s ≡ with_images windows.now zero_cells (map loaded slots.now)) }
{
    let mut store = zero_store(alloc)?;
    fill_all(&mut store, windows, slots);
    Ok(store)
}

/// A store of zeros.
#[tactic(auto, using(crate::proofs::Loading::StoreFilled::zero_count))]
fn zero_store(alloc: Global) -> Result<Store, AllocError>
    ensures cells { IfOk result (λ s. s ≡ zero_cells) }
    ensures size { IfOk result (λ s. length s ≡ STORE_GROUPS) }
{
    Store::new(alloc, STORE_GROUPS)
}

/// Writes the words of each slot from the begin of its window on.
fn fill_all(store: &mut Store, windows: &[Window; 4], slots: &[Loaded])
    requires size { length store.old ≡ STORE_GROUPS }
    requires inside { All (λ (l : Loaded). (window_at windows.now l.p).base + length l.words.items ≤ STORE_WORDS) slots.now }
    ensures { store.new ≡ with_images windows.now store.old (map loaded slots.now) }
{
    for slot in slots.iter() {
        fill(store, window_of(windows, slot.p).base as usize, &slot.words);
    }
}

/// Writes words from a place on.
fn fill(store: &mut Store, place: usize, words: &[Word])
    requires size { length store.old ≡ STORE_GROUPS }
    requires inside { place + length words.now ≤ STORE_WORDS }
    ensures words { store.new ≡ with_words store.old place words.now }
    ensures size { length store.new ≡ STORE_GROUPS }
{
    for i in 0..words.len() {
        put(store, place + i, words[i]);
    }
}

/// Writes a word, unless its group is out.
fn put(store: &mut Store, place: usize, word: Word)
    requires size { length store.old ≡ STORE_GROUPS }
    requires inside { place < STORE_WORDS }
    ensures word { store.new ≡ kept_word store.old place word }
    ensures size { length store.new ≡ STORE_GROUPS }
{
    let _written = store.write(place, word);
}
