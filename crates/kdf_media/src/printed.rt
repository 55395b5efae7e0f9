//! What a line printer prints of a block.
ghost use Rattle.std.specs.Prelude.{◌≡◌, ◌==◌, ◌-◌, if◌then◌else◌};
ghost use Rattle.kdf_media.specs.Media.{printed};

/// The code at which a run of characters ends.
const NEW_LINE: u8 = 0o02;

/// How many characters of a run are printed.
const WIDTH: u8 = 160;

/// Cuts a block to what is printed of it, in its own memory.
pub fn cut(block: &mut Vec<u8>)
    ensures { block.new.items ≡ printed block.old.items }
{
    let mut kept = 0;
    let mut room = WIDTH;
    for i in 0..block.len() {
        let code = block[i];
        if let Some(left) = room_behind(code, room) {
            block[kept] = code;
            kept += 1;
            room = left;
        }
    }
    block.truncate(kept);
}

/// The room in a run after a character, of which there was so much before it; None where it isn't printed.
fn room_behind(code: u8, room: u8) -> Option<u8>
    ensures { result ≡ (if code == 2 then Some 160 else (if room == 0 then None else Some (room - 1))) }
{
    if code == NEW_LINE {
        Some(WIDTH)
    } else {
        room.checked_sub(1)
    }
}
