//! The earlier of two faults, and the laws of faults at one kind of them.
use kdf_fault::{Found, earlier, laws};
use kdf_usercode::DeckFault;

#[test]
fn the_lesser_number_is_earlier_at_one_place(rt: HostRuntime) {
    let first = Found {
        fault: DeckFault::BadByte,
        place: 7,
    };
    let second = Found {
        fault: DeckFault::CommentOpen,
        place: 7,
    };
    assert!(rt; earlier(Some(second), first) == Some(first));
    assert!(rt; earlier(Some(first), second) == Some(first));
    laws::least_is_first::<DeckFault>();
    laws::lesser_is_associative::<DeckFault>();
    laws::lesser_is_commutative::<DeckFault>();
}
