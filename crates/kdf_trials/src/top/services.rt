//! Programs ask a service: what each of them then has.
ghost use Rattle.kdf_service.specs.Rules.{IsService};

use super::{Outside, answer_with};
use kdf_service::Service;
use kdf_top::Status;
use std::alloc::{AllocError, Global};
use std::process::Abort;
use std::test::Fail;

/// Two programs that are served, of which the second asks for the answer to an answer, and one that isn't.
const JOB: &[u8] = b"KDF9 JOB 1\n\
    SLOT 0\nSTORE 32\nDECK\nPROGRAM; SET 7; SETB100; OUT; ZERO; OUT; FINISH;\nENDDECK\nSERVICE\n\
    SLOT 1\nSTORE 32\nDECK\nPROGRAM; SET 7; SETB100; OUT; ZERO; OUT; FINISH;\nENDDECK\n\
    SLOT 3\nSTORE 32\nDECK\nPROGRAM V0; V0=B1234567076543210;\n\
    V0; SETB100; OUT; SETB100; OUT; ZERO; OUT; FINISH;\nENDDECK\nSERVICE\n\
    SCHEDULE\nORDERS 30\nENDJOB\n";

/// What the report of the job says in any case, with `|` for each answer and each word that comes of one.
const REPORT: &[u8] = b"KDF9 REPORT 1\n\
    RAN 0 4\nANSWER 0 |\nRAN 0 2\nENDED 0\n\
    RAN 1 4\nFAIL 1 OUT\n\
    RAN 3 4\nANSWER 3 |\nRAN 3 2\nANSWER 3 |\nRAN 3 2\nENDED 3\n\
    SLOT 0\nSTATE ENDED\nORDERS 6\nAT 2 3\nFLAGS 0 0\nNEST 1 |\nLINKS 0\n\
    SLOT 1\nSTATE FAILED OUT\nORDERS 4\nAT 2 0\nFLAGS 0 0\n\
    NEST 2 0000000000000100 0000000000000007\nLINKS 0\n\
    SLOT 3\nSTATE ENDED\nORDERS 8\nAT 4 1\nFLAGS 0 0\nNEST 1 |\nLINKS 0\n\
    ENDREPORT\n";

/// How many words there are.
const WORDS: u64 = 1 << 48;

/// The answers to words by what they leave when divided by four.
const TABLE: [u64; 4] = [5, 0o7777_7777_7777_7777, 1, 9];

/// What the programs are answered in turn, and the words that the first and the last have at the end, in octal.
type Answers = [&'static str; 5];

const THE_SAME: Answers = [
    "7",
    "45954958542472",
    "45954958542472",
    "0000000000000007",
    "1234567076543210",
];

const BY_TABLE: Answers = [
    "9",
    "5",
    "281474976710655",
    "0000000000000011",
    "7777777777777777",
];

const ZERO: Answers = ["0", "0", "0", "0000000000000000", "0000000000000000"];

/// The report of the job with these answers, and the words that come of them.
fn report_of(rt: &impl Abort, alloc: Global, due: Answers) -> Result<Vec<u8>, AllocError> {
    let mut report = Vec::new(alloc);
    let mut next = 0usize;
    for byte in REPORT {
        if *byte == b'|' && next < due.len() {
            report.extend_from_slice(due[next].as_bytes())?;
            next += 1;
        } else {
            report.push(*byte)?;
        }
    }
    assert!(rt; next == due.len());
    Ok(report)
}

/// Nothing fails, and there is room for the whole report.
const WHOLE: Outside = Outside {
    read: 0,
    put: 0,
    room: 1000,
};

/// With this service the programs are answered so.
fn expect<F: Fn(u64) -> u64>(
    rt: &impl Abort,
    alloc: Global,
    service: &Service<F>,
    due: Answers,
) -> Result<(), AllocError>
    requires { IsService (F.pre service.now) (F.post service.now) }
{
    let report = report_of(rt, alloc, due)?;
    let (status, text) = answer_with(alloc, &["run"], JOB, WHOLE, service)?;
    assert!(rt; status == Status::Done);
    assert_eq!(rt; text.as_slice(), report.as_slice());
    Ok(())
}

/// A service that answers with the word itself.
fn answers_the_same(rt: &impl Abort, alloc: Global) -> Result<(), AllocError> {
    expect(rt, alloc, &Service::new(|word: u64| word), THE_SAME)
}

/// A service that answers by a table.
fn answers_by_table(rt: &impl Abort, alloc: Global) -> Result<(), AllocError> {
    let service = Service::new(|word: u64| TABLE[(word % 4) as usize] % WORDS);
    expect(rt, alloc, &service, BY_TABLE)
}

/// A service that answers 0.
fn answers_zero(rt: &impl Abort, alloc: Global) -> Result<(), AllocError> {
    expect(rt, alloc, &Service::new(|_word: u64| 0), ZERO)
}

#[test]
fn programs_have_what_their_service_answers(rt: HostRuntime) -> Result<(), Fail> {
    answers_the_same(&rt, rt.alloc())?;
    answers_by_table(&rt, rt.alloc())?;
    answers_zero(&rt, rt.alloc())?;
    Ok(())
}
