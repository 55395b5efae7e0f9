//! What each fault says, in a sentence.

ghost use Rattle.std.specs.Prelude.{◌≡◌};
ghost use Rattle.kdf_facts.specs.Faults.{number_of_job};

use kdf_job::JobFault;
use kdf_snapshot::SnapshotFault;
use kdf_usercode::DeckFault;

/// The number of a fault of a job, counted from 1, in the order in which a line has them.
pub fn number_of_job(fault: JobFault) -> u8
    ensures { result ≡ number_of_job fault }
{
    match fault {
        JobFault::Header => 1,
        JobFault::BadLine => 2,
        JobFault::BadNumber => 3,
        JobFault::SlotOrder => 4,
        JobFault::SizeNotGroups => 5,
        JobFault::StoreFull => 6,
        JobFault::DeviceTwice => 7,
        JobFault::BadLabel => 8,
        JobFault::LabelTwice => 9,
        JobFault::BadMedium => 10,
        JobFault::ShowRange => 11,
        JobFault::ClockFalls => 12,
        JobFault::TooManyOrders => 13,
        JobFault::TooManyEvents => 14,
        JobFault::PoolKind => 15,
    }
}

/// What a fault of a job says.
pub fn of_job(fault: JobFault) -> &'static str {
    match fault {
        JobFault::Header => "line 1 is missing, or isn't `KDF9 JOB 1`",
        JobFault::BadLine => "this line isn't allowed here",
        JobFault::BadNumber => "a field that should be a number isn't one, or is out of range",
        JobFault::SlotOrder => "the slot isn't higher than the slot before it",
        JobFault::SizeNotGroups => "the store isn't a multiple of 32",
        JobFault::StoreFull => "the stores so far add up to more than 31744 words",
        JobFault::DeviceTwice => "an earlier device of the job has this number",
        JobFault::BadLabel => "the label isn't 1 to 8 characters of A to Z and 0 to 9",
        JobFault::LabelTwice => "the slot already has a tape with this label",
        JobFault::BadMedium => BAD_MEDIUM,
        JobFault::ShowRange => {
            "the first address is above the last, or the last isn't below the size of the store"
        }
        JobFault::ClockFalls => "the time is earlier than the one before it",
        JobFault::TooManyOrders => "the `ORDERS` lines so far add up to more than 20000000",
        JobFault::TooManyEvents => "this is line 500,001 of the schedule",
        JobFault::PoolKind => "a device of the pool is neither a punch nor a printer",
    }
}

const BAD_MEDIUM: &str =
    "a byte isn't a character, the line is too long for its kind, a block of a tape is empty, `=` follows a device that isn't a tape, the device is a punch or a printer, or the line is in the pool";

/// What a fault of a snapshot says.
pub fn of_snapshot(fault: SnapshotFault) -> &'static str {
    match fault {
        SnapshotFault::NoJournal => "the line after the front job isn't `JOURNAL`",
        SnapshotFault::BadEntry => BAD_ENTRY,
        SnapshotFault::NoEnd => {
            "no line after `SEAL` is `ENDSNAPSHOT`; the line is the one after the last"
        }
        SnapshotFault::JournalDiffers => JOURNAL_DIFFERS,
        SnapshotFault::SealDiffers => SEAL_DIFFERS,
    }
}

const BAD_ENTRY: &str =
    "this line, between `JOURNAL` and `SEAL`, isn't an entry as a journal has it. If `SEAL` is missing, the end of the text counts as one more line";

const JOURNAL_DIFFERS: &str =
    "this is the first entry that isn't that of the front job's journal. If entries are missing at the end, it is the line `SEAL`";

const SEAL_DIFFERS: &str =
    "this is the first line after `SEAL` that isn't that of the front job's snapshot. If lines are missing at the end, it is the line `ENDSNAPSHOT`";

/// What a fault of a deck says.
pub fn of_deck(fault: DeckFault) -> &'static str {
    match fault {
        DeckFault::BadByte => {
            "This byte can't occur in a deck, even in a comment; a tab is the usual case."
        }
        DeckFault::CommentOpen => "A `(` has no `)` after it.",
        DeckFault::NoSemicolon => "There is text after the last `;`.",
        DeckFault::UnknownOrder => "This isn't a Usercode statement.",
        DeckFault::Floating => FLOATING,
        DeckFault::BadNumber => "A number is out of range, other than those of faults 7 and 8.",
        DeckFault::QRange => "The number of a Q-store is above 15.",
        DeckFault::ConstantRange => { "A constant is out of range, or has more than 8 characters." }
        DeckFault::BadHeading => BAD_HEADING,
        DeckFault::NoFinish => "There is no `FINISH`.",
        DeckFault::AfterFinish => "There is text after `FINISH`.",
        DeckFault::ReferenceTwice => "This part already has this reference.",
        DeckFault::ReferenceMissing => {
            "The part that the target names doesn't have this reference."
        }
        DeckFault::PartTwice => "An earlier part has this number.",
        DeckFault::PartMissing => "A jump or a store names a part that the deck doesn't have.",
        DeckFault::VRange => VRANGE,
        DeckFault::YRange => "The deck doesn't declare this Y-store.",
        DeckFault::ShortLoopFar => {
            "Reference r of `JrCqNZS` isn't at the beginning of the word before its own."
        }
        DeckFault::TooLarge => "The image has more words than the store.",
    }
}

const FLOATING: &str =
    "This is a floating-point order of the KDF9, which this machine leaves out: `+F` `-F` `XF` `X+F` `DIVF` `NEGF` `ABSF` `MAXF` `SIGNF` `FLOAT` `FLOATD` `FIX` `ROUNDF` `ROUNDHF` `STAND` `+DF` `-DF` `XDF` `DIVDF` `NEGDF`.";

const BAD_HEADING: &str =
    "The statement isn't allowed here: it is out of sequence, or it declares `Y` or a `YL` for the second time.";

const VRANGE: &str =
    "The part doesn't declare this V-store, or the V-store already has a constant.";
