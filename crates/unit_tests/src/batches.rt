use crate::rows::see;
use made_batches::make_batch;
use std::test::Fail;

/// Two jobs from the seed 7.
const TWO: &[u8] = b"%ACCOUNT M0 3000
%ACCOUNT M1 3000
%ACCOUNT M2 3000
%ACCOUNT M3 3000
%JOB J1,M1,STEPS=5000,LINES=5
BEGIN WRITE(UNKNOWN + 7) END.
%JOB J2,M2,STEPS=5000,LINES=5
BEGIN INTEGER ARRAY A (0::25); A(0) := 1;
FOR I := 1 UNTIL 25 DO A(I) := A(I - 1) + I;
WRITE(A(25)) END.
";

/// Six jobs from the seed 20: each deck stands once among them.
const SIX: &[u8] = b"%ACCOUNT M0 3000
%ACCOUNT M1 3000
%ACCOUNT M2 3000
%ACCOUNT M3 3000
%JOB J1,M1,STEPS=5000,LINES=5
BEGIN INTEGER ARRAY A (0::43); A(0) := 1;
FOR I := 1 UNTIL 43 DO A(I) := A(I - 1) + I;
WRITE(A(43)) END.
%JOB J2,M2,STEPS=5000,LINES=5
BEGIN WRITE(UNKNOWN + 42) END.
%JOB J3,M3,STEPS=5000,LINES=5
BEGIN INTEGER I, S; I := S := 0;
WHILE I < 10 DO BEGIN I := I + 1; S := S + I END;
WRITE(S) END.
%JOB J4,M0,STEPS=5000,LINES=5
BEGIN INTEGER Z; Z := 26 - 26; WRITE(26 DIV Z) END.
%JOB J5,M1,STEPS=5000,LINES=5
BEGIN INTEGER K;
INTEGER PROCEDURE SUM (INTEGER I, X);
BEGIN INTEGER S; S := 0; I := 1;
WHILE I <= 42 DO BEGIN S := S + X; I := I + 1 END; S END;
WRITE(SUM(K, K * K)) END.
%JOB J6,M2,STEPS=5000,LINES=5
BEGIN INTEGER PROCEDURE F (INTEGER VALUE K);
IF K = 0 THEN 0 ELSE K + F(K - 1);
WRITE(F(1)) END.
";

/// A job from the last seed.
const LAST: &[u8] = b"%ACCOUNT M0 3000
%ACCOUNT M1 3000
%ACCOUNT M2 3000
%ACCOUNT M3 3000
%JOB J1,M1,STEPS=5000,LINES=5
BEGIN INTEGER PROCEDURE F (INTEGER VALUE K);
IF K = 0 THEN 0 ELSE K + F(K - 1);
WRITE(F(10)) END.
";

#[test]
fn batches(rt: HostRuntime) -> Result<(), Fail> {
    for (seed, jobs, batch) in [(7, 2, TWO), (20, 6, SIX), (u32::MAX, 1, LAST)] {
        let made = make_batch(rt.alloc(), seed, jobs)?;
        see(&rt, "a made batch", made.as_slice() == batch);
    }
    Ok(())
}
