//! Examples of what an order needs after the groups of its syllables, the program having transfers on devices 2
//! and 5, and devices 0 to 5 being claimed.
#![tactic(auto, unfolding(crate::specs::Table::transfer_of, crate::specs::Table::query_effect, crate::specs::Table::plain_row, crate::specs::Table::out_effect, crate::specs::Table::guarded, crate::specs::Claims::free_for, kdf_arith::specs::Arith::arith_result, kdf_arith::specs::Rows::arith_row))]

ghost use Rattle.std.specs.Prelude.{◌≡◌, [], ◌∷◌};
ghost use Rattle.kdf_syllable.specs.declared.order.Order.TheVariants as order;
ghost use Rattle.kdf_journal.specs.declared.need.Need.TheVariants.{Group, Device};
ghost use Rattle.kdf_processor.specs.Examples.{parts, counted, linked, waits_for, label_a, label_b};

/// A transfer needs its device, and then the groups of its area, be it input or output; one without an area needs
/// its device alone.
pub fn transfers()
    ensures output { waits_for (counted 60 [] (parts 1 90 170)) (order.Device 0x72 1)
        ≡ Device 1 ∷ Group 2 ∷ Group 3 ∷ Group 4 ∷ Group 5 ∷ [] }
    ensures input { waits_for (counted 60 [] (parts 0 90 170)) (order.Device 0x70 1)
        ≡ Device 0 ∷ Group 2 ∷ Group 3 ∷ Group 4 ∷ Group 5 ∷ [] }
    ensures one_group { waits_for (counted 60 [] (parts 3 64 95)) (order.Device 0x75 1)
        ≡ Device 3 ∷ Group 2 ∷ [] }
    ensures two_words { waits_for (counted 60 [] (parts 4 63 64)) (order.Device 0x79 1)
        ≡ Device 4 ∷ Group 1 ∷ Group 2 ∷ [] }
    ensures last_word { waits_for (counted 60 [] (parts 2 8191 8191)) (order.Device 0x74 1)
        ≡ Device 2 ∷ Group 255 ∷ [] }
    ensures rewind { waits_for (counted 60 [] (parts 4 64 95)) (order.Device 0x7B 1)
        ≡ Device 4 ∷ [] }
    ensures skip { waits_for (counted 60 [] (parts 5 64 95)) (order.Device 0x7C 1) ≡ Device 5 ∷ [] }
{}

/// A test needs its device. An order that asks needs nothing.
pub fn tests()
    ensures busyq { waits_for (counted 60 [] (parts 3 90 170)) (order.Query 0 1) ≡ [] }
    ensures tloq { waits_for (counted 60 [] (parts 3 90 170)) (order.Query 1 1) ≡ [] }
    ensures parq { waits_for (counted 60 [] (parts 3 90 170)) (order.Query 2 1) ≡ Device 3 ∷ [] }
    ensures mbtq { waits_for (counted 60 [] (parts 4 90 170)) (order.Query 3 1) ≡ Device 4 ∷ [] }
    ensures mlbq { waits_for (counted 60 [] (parts 5 90 170)) (order.Query 4 1) ≡ Device 5 ∷ [] }
    ensures intq { waits_for (counted 60 [] (parts 0 90 170)) (order.Query 5 1) ≡ Device 0 ∷ [] }
{}

/// OUT 6 needs its device and OUT 8 the groups of its area. OUT 3, 4, 5 and 9 need nothing.
pub fn calls()
    ensures count { waits_for (linked 60 (3 ∷ []) []) (order.Plain 0x21) ≡ [] }
    ensures claim_by_label { waits_for (linked 60 (4 ∷ label_a ∷ []) []) (order.Plain 0x21) ≡ [] }
    ensures claim_by_kind { waits_for (linked 60 (5 ∷ 1 ∷ []) []) (order.Plain 0x21) ≡ [] }
    ensures give_back { waits_for (linked 60 (6 ∷ 3 ∷ []) []) (order.Plain 0x21) ≡ Device 3 ∷ [] }
    ensures spool { waits_for (linked 60 (8 ∷ 0x0003005a00aa ∷ []) []) (order.Plain 0x21)
        ≡ Group 2 ∷ Group 3 ∷ Group 4 ∷ Group 5 ∷ [] }
    ensures time { waits_for (linked 60 (9 ∷ []) []) (order.Plain 0x21) ≡ [] }
{}

/// OUT 0 and an order that fails need every device on which the program has a transfer.
pub fn ends()
    ensures end { waits_for (linked 60 (0 ∷ []) []) (order.Plain 0x21) ≡ Device 2 ∷ Device 5 ∷ [] }
    ensures no_call { waits_for (linked 60 (1 ∷ []) []) (order.Plain 0x21)
        ≡ Device 2 ∷ Device 5 ∷ [] }
    ensures no_number { waits_for (linked 60 [] []) (order.Plain 0x21) ≡ Device 2 ∷ Device 5 ∷ [] }
    ensures no_tape { waits_for (linked 60 (4 ∷ label_b ∷ []) []) (order.Plain 0x21)
        ≡ Device 2 ∷ Device 5 ∷ [] }
    ensures no_kind { waits_for (linked 60 (5 ∷ 9 ∷ []) []) (order.Plain 0x21)
        ≡ Device 2 ∷ Device 5 ∷ [] }
    ensures not_claimed { waits_for (linked 60 (6 ∷ 7 ∷ []) []) (order.Plain 0x21)
        ≡ Device 2 ∷ Device 5 ∷ [] }
    ensures no_stream { waits_for (linked 60 (8 ∷ 0x0008005a00aa ∷ []) []) (order.Plain 0x21)
        ≡ Device 2 ∷ Device 5 ∷ [] }
    ensures falling { waits_for (counted 60 [] (parts 1 50 49)) (order.Device 0x72 1)
        ≡ Device 2 ∷ Device 5 ∷ [] }
    ensures other_kind { waits_for (counted 60 [] (parts 0 90 170)) (order.Device 0x72 1)
        ≡ Device 2 ∷ Device 5 ∷ [] }
    ensures test { waits_for (counted 60 [] (parts 7 0 0)) (order.Query 2 1)
        ≡ Device 2 ∷ Device 5 ∷ [] }
    ensures tloq { waits_for (counted 60 [] (parts 7 0 8192)) (order.Query 1 1)
        ≡ Device 2 ∷ Device 5 ∷ [] }
    ensures no_word { waits_for (linked 60 [] []) (order.Plain 0x02) ≡ Device 2 ∷ Device 5 ∷ [] }
{}
