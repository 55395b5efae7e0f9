//! The jobs of programs that share punches and printers.

/// Programs of several slots, with a pool.
pub struct Shared {
    pub name: &'static str,
    /// The job up to its schedule.
    pub front: &'static str,
    /// The numbers of the devices of which a schedule moves words, and whose transfers it ends.
    pub devices: &'static [u8],
}

pub const JOBS: [Shared; 3] = [
    Shared {
        name: "one punch is taken, given back and taken again",
        front: IN_TURN,
        devices: &[9],
    },
    Shared {
        name: "a punch and a printer of the pool, and one that fails with it",
        front: PUNCH_AND_PRINTER,
        devices: &[4, 7, 9],
    },
    Shared {
        name: "two punches, one asked for twice, and never given back",
        front: NEVER_GIVEN_BACK,
        devices: &[0, 15],
    },
];

const IN_TURN: &str = "KDF9 JOB 1\n\
    SLOT 0\n\
    STORE 64\n\
    DECK\n\
    PROGRAM V1; V0=Q0/32/33; V1=PAB|CD; V1; =E32; V1; =E33;\n\
    SET 1; SET 5; OUT; V0; =Q1; =C1; PWQ1; BUSYQ1; C1; SET 6; OUT;\n\
    SET 1; SET 5; OUT; V0; =Q1; =C1; PWEQ1; PWQ1; C1; SET 6; OUT;\n\
    ZERO; OUT; FINISH;\n\
    ENDDECK\n\
    SLOT 1\n\
    STORE 64\n\
    DECK\n\
    PROGRAM V1; V0=Q0/32/33; V1=PXYZ; V1; =E32; V1; =E33;\n\
    SET 1; SET 5; OUT; V0; =Q1; =C1; PWQ1; C1; SET 6; OUT; SET 9; OUT; =E40;\n\
    SET 1; SET 5; OUT; V0; =Q1; =C1; PWEQ1; PWQ1; ZERO; OUT; FINISH;\n\
    ENDDECK\n\
    SHOW 40 40\n\
    POOL\n\
    DEVICE 9 TP\n";

const PUNCH_AND_PRINTER: &str = "KDF9 JOB 1\n\
    SLOT 0\n\
    STORE 64\n\
    DECK\n\
    PROGRAM V2; V0=Q0/32/33; V1=PAB|CD; V2=PLINE; V1; =E32; V2; =E33;\n\
    SET 1; SET 5; OUT; V0; =Q1; =C1; SET 3; SET 5; OUT; V0; =Q2; =C2;\n\
    PWQ1; LPQ2; C2; SET 6; OUT; PWEQ1; ZERO; OUT; FINISH;\n\
    ENDDECK\n\
    SLOT 1\n\
    STORE 64\n\
    DECK\n\
    PROGRAM V1; V0=Q0/32/32; V1=PFAILS; V1; =E32;\n\
    SET 3; SET 5; OUT; V0; =Q1; =C1; LPQ1; LPEQ1; SET 2; SET 6; OUT; ZERO; OUT; FINISH;\n\
    ENDDECK\n\
    SLOT 2\n\
    STORE 64\n\
    DECK\n\
    PROGRAM V1; V0=Q0/32/32; V1=POWN; V1; =E32;\n\
    SET 3; SET 5; OUT; V0; =Q1; =C1; LPQ1;\n\
    SET 1; SET 5; OUT; V0; =Q2; =C2; PWQ2; TLOQ2; SET 9; OUT; =E40;\n\
    SET 3; SET 5; OUT; V0; =Q3; =C3; LPQ3; C3; SET 6; OUT; C1; SET 6; OUT;\n\
    SET 3; SET 5; OUT; V0; =Q1; =C1; LPEQ1; ZERO; OUT; FINISH;\n\
    ENDDECK\n\
    DEVICE 7 LP\n\
    SHOW 40 40\n\
    POOL\n\
    DEVICE 9 TP\n\
    DEVICE 4 LP\n";

const NEVER_GIVEN_BACK: &str = "KDF9 JOB 1\n\
    SLOT 1\n\
    STORE 64\n\
    DECK\n\
    PROGRAM V1; V0=Q0/32/33; V1=PA|BC|D; V1; =E32; V1; =E33;\n\
    SET 1; SET 5; OUT; V0; =Q1; =C1; PWQ1; SET 1; SET 5; OUT; V0; =Q2; =C2; PWEQ2;\n\
    PWQ1; BUSYQ2; ZERO; OUT; FINISH;\n\
    ENDDECK\n\
    SLOT 3\n\
    STORE 64\n\
    DECK\n\
    PROGRAM V1; V0=Q0/32/32; V1=PLAST; V1; =E32;\n\
    SET 1; SET 5; OUT; V0; =Q1; =C1; PWQ1; SET 1; SET 6; OUT; ZERO; OUT; FINISH;\n\
    ENDDECK\n\
    POOL\n\
    DEVICE 15 TP\n\
    DEVICE 0 TP\n";
