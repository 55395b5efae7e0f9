//! The forms of statements, and what is said of names that have none.

/// Every form of a statement whose operands are numbers, with a 0 for each of them.
pub const FORMS: &[u8] = b"\
    DUMMY ERASE DUP DUPD REV REVD CAB PERM ZERO AND OR NOT NEV BITS NEG ABS + - XD CONT STR +D -D NEGD \
    DIVI TOB FRB LINK =LINK =TR VR OUT M0M0 M0M0Q M0M0H M0M0QH M0M0N M0M0QN M0M0HN M0M0QHN =M0M0 =M0M0Q \
    =M0M0H =M0M0QH =M0M0N =M0M0QN =M0M0HN =M0M0QHN Q0 C0 I0 M0 =Q0 =C0 =I0 =M0 =+Q0 =+C0 =+I0 =+M0 =RC0 \
    =RI0 =RM0 NC0 DC0 M+I0 M-I0 M0TOQ0 I0TOQ0 IM0TOQ0 C0TOQ0 CM0TOQ0 CI0TOQ0 Q0TOQ0 SHA0 SHA+0 SHA-0 \
    SHAC0 SHL0 SHL+0 SHL-0 SHLC0 SHC0 SHC+0 SHC-0 SHCC0 SHAD0 SHAD+0 SHAD-0 SHADC0 SHLD0 SHLD+0 SHLD-0 \
    SHLDC0 J0C0NZS PRQ0 PREQ0 PWQ0 PWEQ0 CRQ0 LPQ0 LPEQ0 MFRQ0 MBRQ0 MWQ0 MLWQ0 MRWDQ0 MFSKQ0 MBSKQ0 \
    BUSYQ0 TLOQ0 PARQ0 MBTQ0 MLBQ0 INTQ0 J0C0Z JP0C0Z J0P0C0Z J0C0NZ JP0C0NZ J0P0C0NZ J0 JP0 J0P0 JS0 \
    JSP0 JS0P0 J0= JP0= J0P0= J0# JP0# J0P0# J0=Z JP0=Z J0P0=Z J0#Z JP0#Z J0P0#Z J0GTZ JP0GTZ J0P0GTZ \
    J0LTZ JP0LTZ J0P0LTZ J0GEZ JP0GEZ J0P0GEZ J0LEZ JP0LEZ J0P0LEZ J0V JP0V J0P0V J0NV JP0NV J0P0NV J0TR \
    JP0TR J0P0TR J0NTR JP0NTR J0P0NTR J0EN JP0EN J0P0EN J0NEN JP0NEN J0P0NEN J0EJ JP0EJ J0P0EJ J0NEJ \
    JP0NEJ J0P0NEJ EXIT EXIT0 E0 E0M0 E0M0Q V0 V0M0 V0M0Q V0P0 V0P0M0 V0P0M0Q Y0 Y0M0 Y0M0Q =E0 =E0M0 \
    =E0M0Q =V0 =V0M0 =V0M0Q =V0P0 =V0P0M0 =V0P0M0Q =Y0 =Y0M0 =Y0M0Q SET0 SET+0 SET-0 SETB0 SETAV0 \
    SETAV0P0 SETAY0 PROGRAM PROGRAMV0 P0 P0V0 FINISH * 0";

/// Names that other machines have for what a statement does, with a 0 for each number; what such names begin with; and how it is written here.
pub const ELSEWHERE: [(&str, &str, &str); 18] = [
    (
        "PROG PROGRAM PROGRAMM PROGRAME PROGRAMME MAIN START BEGIN \
         PROGV0 PROGRAMV0 PROGRAMMV0 PROGRAMEV0 PROGRAMMEV0 MAINV0 STARTV0 BEGINV0",
        "",
        "the main part begins with PROGRAM; or, if it has V-stores, with PROGRAM V0;",
    ),
    ("ADD PLUS", "", "+ adds"),
    ("SUB MINUS SUBTRACT", "", "- subtracts"),
    ("MUL MULT MPY TIMES", "", "XD; CONT multiplies"),
    ("POP DROP DEL DELETE", "", "ERASE drops the top"),
    ("SWAP EXCH EXCHANGE", "", "REV exchanges the top two"),
    ("NOP NOOP", "", "DUMMY does nothing"),
    (
        "RET RETURN",
        "",
        "EXIT 1 returns from a part that JS called",
    ),
    ("STOP HALT HLT END QUIT", "", "ZERO; OUT; ends a program"),
    ("XOR", "", "NEV is exclusive or"),
    ("ROT ROTATE", "", "CAB and PERM rotate the top three"),
    ("", "CALL JSR GOSUB", "JSP1 calls part 1"),
    ("", "GOTO JMP JUMP BRA", "J1 jumps to reference 1"),
    (
        "",
        "PUSH LOAD LDA",
        "SET pushes a number, and the name of a word pushes the word",
    ),
    ("", "STORE STA", "=V0 stores the top in V0"),
    ("INC", "", "SET 1; + adds one"),
    ("DEC", "", "SET 1; - subtracts one"),
    ("", "PRINT WRITE", "LPQ1 prints the area of Q1"),
];

/// The orders of the KDF9 that this machine leaves out, besides floating point, likewise; and what comes nearest.
pub const LEFT_OUT: [(&str, &str, &str); 7] = [
    ("X", "", "XD and CONT multiply whole numbers"),
    ("MAX", "", "compare with - and JrLTZ"),
    ("SIGN", "", "compare with JrGTZ and JrLTZ"),
    ("DIV DIVD DIVR", "", "DIVI divides whole numbers"),
    ("ROUND ROUNDH", "", "SHA to the right rounds"),
    ("CTQ0", "", "no order ends a transfer"),
    ("W0 W0Q =W0 =W0Q", "", "use V-stores and Y-stores"),
];

/// Orders that belong to Director, besides `CLOQq`.
pub const OF_DIRECTOR: &[u8] = b"=K0 =K1 =K2 =K3 K4 K5 K7";

/// What is said of them.
pub const BELONGS: &str = "it belongs to Director, which isn't a program here";
