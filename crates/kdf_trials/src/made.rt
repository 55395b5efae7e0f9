//! The text of the job that is made from a number.
use kdf_job::generated;
use std::test::Fail;

/// Its first lines, where the number is 0.
const FRONT: &[u8] = b"KDF9 JOB 1\n\
    SLOT 0\n\
    STORE 96\n\
    DECK\n\
    Y0; PROGRAM V0; V0=Q0/64/65;\n\
    SET 2; SET 5; OUT; V0; =Q1; =C1; SET 1; SET 5; OUT; V0; =Q2; =C2;\n\
    1; PRQ1; PARQ1; J2TR; E64; E65; NEV; Y0; NEV; =Y0; PWQ2; J1;\n\
    2; ZERO; OUT; FINISH;\n\
    ENDDECK\n\
    DEVICE 0 TR\n\
    +CIRPCFURSWAPFPNF\n";

#[test]
fn a_job_is_made(rt: HostRuntime) -> Result<(), Fail> {
    let text = generated(rt.alloc(), 0)?;
    assert!(rt; text.len() == 39_175);
    assert!(rt; text.starts_with(FRONT));
    assert!(rt; text.ends_with(b"END 7\nENDJOB\n"));
    Ok(())
}
