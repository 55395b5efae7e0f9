//! The jobs whose runs are watched.

/// Each job with its name.
pub const JOBS: [(&str, &str); 10] = [
    ("one that ends in the middle of its orders", SUM),
    ("one that never ends", COUNTS_FOR_EVER),
    ("one that reads a tape, word by word", READS_TAPE),
    ("one that asks for its device and the time", ASKS),
    ("one whose slots ask the service", SERVED),
    ("one in which two programs exchange priorities", EXCHANGED),
    ("one in which a program fails", FAILS),
    ("one in which two programs want one punch", IN_TURN),
    (
        "one in which a punch is given back, with exchanges",
        GIVEN_BACK,
    ),
    ("one that ends before its schedule", ENDS_EARLY),
];

/// Adds 5 and 7 in seven orders, whose next ones are at syllables 6, 9, 12, 13, 16, 17 and 18.
const SUM: &str = "KDF9 JOB 1\n\
    SLOT 0\n\
    STORE 32\n\
    DECK\n\
    Y0; PROGRAM; SET 5; SET 7; +; =Y0; ZERO; OUT; FINISH;\n\
    ENDDECK\n\
    SHOW 3 3\n\
    SCHEDULE\n\
    ORDERS 3\n\
    CLOCK 5\n\
    ORDERS 10\n\
    ENDJOB\n";

/// Comes to syllable 6 after its first order, and then after each five.
const COUNTS_FOR_EVER: &str = "KDF9 JOB 1\n\
    SLOT 0\n\
    STORE 32\n\
    DECK\n\
    Y0; PROGRAM; 1; Y0; SET 1; +; =Y0; J1; FINISH;\n\
    ENDDECK\n\
    SCHEDULE\n\
    ORDERS 17\n\
    ENDJOB\n";

const READS_TAPE: &str = "KDF9 JOB 1\n\
    SLOT 0\n\
    STORE 64\n\
    DECK\n\
    PROGRAM V0; V0=Q0/32/33; SET 2; SET 5; OUT; V0; =Q1; =C1; PRQ1; E32; ZERO; OUT; FINISH;\n\
    ENDDECK\n\
    DEVICE 3 TR\n\
    +ABCDEFGHIJKLMNOP\n\
    SHOW 32 33\n\
    SCHEDULE\n\
    ORDERS 12\n\
    MOVE 3 1\n\
    ORDERS 2\n\
    END 3\n\
    ORDERS 5\n\
    ENDJOB\n";

/// Its program asks whether its device is busy and what time it is, again and again.
const ASKS: &str = "KDF9 JOB 1\n\
    SLOT 0\n\
    STORE 64\n\
    DECK\n\
    PROGRAM V0; V0=Q0/32/33; SET 2; SET 5; OUT; V0; =Q1; =C1; PRQ1;\n\
    BUSYQ1; SET 9; OUT; INTQ1; BUSYQ1; SET 9; OUT; ZERO; OUT; FINISH;\n\
    ENDDECK\n\
    DEVICE 3 TR\n\
    +ABCDEFGHIJKLMNOP\n\
    SHOW 32 33\n\
    SCHEDULE\n\
    ORDERS 15\n\
    CLOCK 50\n\
    END 3\n\
    ORDERS 10\n\
    ENDJOB\n";

const SERVED: &str = "KDF9 JOB 1\n\
    SLOT 0\n\
    STORE 32\n\
    DECK\n\
    PROGRAM; SET 7; SETB100; OUT; ZERO; OUT; FINISH;\n\
    ENDDECK\n\
    SERVICE\n\
    SLOT 3\n\
    STORE 32\n\
    DECK\n\
    PROGRAM; SET 9; SETB100; OUT; SETB100; OUT; ZERO; OUT; FINISH;\n\
    ENDDECK\n\
    SERVICE\n\
    SCHEDULE\n\
    ORDERS 4\n\
    SWAP 0 3\n\
    ORDERS 10\n\
    ENDJOB\n";

const EXCHANGED: &str = "KDF9 JOB 1\n\
    SLOT 1\n\
    STORE 32\n\
    DECK\n\
    Y0; PROGRAM; 1; Y0; SET 1; +; =Y0; J1; FINISH;\n\
    ENDDECK\n\
    SLOT 2\n\
    STORE 32\n\
    DECK\n\
    Y0; PROGRAM; SET 5; SET 7; +; =Y0; ZERO; OUT; FINISH;\n\
    ENDDECK\n\
    SHOW 3 3\n\
    SCHEDULE\n\
    ORDERS 5\n\
    SWAP 1 2\n\
    ORDERS 3\n\
    SWAP 2 1\n\
    ORDERS 4\n\
    SWAP 1 3\n\
    ORDERS 9\n\
    ENDJOB\n";

const FAILS: &str = "KDF9 JOB 1\n\
    SLOT 0\n\
    STORE 32\n\
    DECK\n\
    PROGRAM; E31; E32; FINISH;\n\
    ENDDECK\n\
    SLOT 1\n\
    STORE 32\n\
    DECK\n\
    PROGRAM; SET 9; ZERO; OUT; FINISH;\n\
    ENDDECK\n\
    SCHEDULE\n\
    ORDERS 20\n\
    ENDJOB\n";

/// Its programs want the one punch of the pool, one after the other.
const IN_TURN: &str = "KDF9 JOB 1\n\
    SLOT 0\n\
    STORE 64\n\
    DECK\n\
    PROGRAM V0; V0=Q0/32/32; SET 1; SET 5; OUT; V0; =Q1; =C1; PWQ1; ZERO; OUT; FINISH;\n\
    ENDDECK\n\
    SLOT 1\n\
    STORE 64\n\
    DECK\n\
    PROGRAM V0; V0=Q0/32/32; SET 1; SET 5; OUT; V0; =Q1; =C1; PWQ1; ZERO; OUT; FINISH;\n\
    ENDDECK\n\
    POOL\n\
    DEVICE 9 TP\n\
    SCHEDULE\n\
    ORDERS 20\n\
    END 9\n\
    ORDERS 20\n\
    END 9\n\
    ORDERS 5\n\
    ENDJOB\n";

const GIVEN_BACK: &str = "KDF9 JOB 1\n\
    SLOT 0\n\
    STORE 64\n\
    DECK\n\
    PROGRAM V0; V0=Q0/32/32; SET 1; SET 5; OUT; V0; =Q1; =C1; PWQ1; C1; SET 6; OUT; ZERO; OUT; FINISH;\n\
    ENDDECK\n\
    SLOT 1\n\
    STORE 64\n\
    DECK\n\
    PROGRAM V0; V0=Q0/32/32; SET 1; SET 5; OUT; V0; =Q1; =C1; PWQ1; ZERO; OUT; FINISH;\n\
    ENDDECK\n\
    POOL\n\
    DEVICE 9 TP\n\
    SCHEDULE\n\
    ORDERS 6\n\
    SWAP 0 1\n\
    ORDERS 14\n\
    END 9\n\
    ORDERS 20\n\
    END 9\n\
    ORDERS 5\n\
    ENDJOB\n";

const ENDS_EARLY: &str = "KDF9 JOB 1\n\
    SLOT 0\n\
    STORE 32\n\
    DECK\n\
    Y0; PROGRAM; SET 5; SET 7; +; =Y0; ZERO; OUT; FINISH;\n\
    ENDDECK\n\
    SCHEDULE\n\
    CLOCK 3\n\
    ORDERS 20\n\
    END 3\n\
    CLOCK 9\n\
    SWAP 0 1\n\
    ORDERS 5\n\
    ENDJOB\n";
