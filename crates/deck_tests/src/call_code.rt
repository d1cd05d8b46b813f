//! Decks of calls that hand on, take subarrays, ask and compare, and what is listed where a deck has no code, and how their code is listed.

/// The batch.
pub(crate) const DECKS: &str = "\
%ACCOUNT ADA 500
%JOB HANDEDON,ADA
BEGIN INTEGER N;
INTEGER ARRAY A (1::2);
PROCEDURE P (PROCEDURE Q; INTEGER PROCEDURE F; INTEGER ARRAY B (*));
P(Q, F, B);
PROCEDURE R; ;
INTEGER PROCEDURE G; 7;
P(R, G, A);
P(N := 1, N + 1, A)
END.
%EOJ
%JOB SUBARRAY,ADA
BEGIN INTEGER N; INTEGER ARRAY A (1::2, 0::9);
PROCEDURE CLEAR (INTEGER ARRAY R (*));
R(N) := 0;
CLEAR(A(2,*));
CLEAR(A(*,N))
END.
%EOJ
%JOB FUNCTION,ADA
BEGIN INTEGER N;
INTEGER PROCEDURE G; 7;
PROCEDURE P (INTEGER VALUE X; INTEGER Y); ;
P(G, G)
END.
%EOJ
%JOB NESTED,ADA
BEGIN INTEGER N;
INTEGER PROCEDURE F (INTEGER X); X;
PROCEDURE P (INTEGER Y); ;
P(F(N))
END.
%EOJ
%JOB ASKED,ADA
BEGIN STRING(5) S; RECORD C (STRING(2) T); REFERENCE(C) R;
PROCEDURE P (STRING(2) X);
X := \"AB\";
P(S(1|2));
P(T(R))
END.
%EOJ
%JOB FORWARD,ADA
BEGIN
PROCEDURE P;
Q;
PROCEDURE Q;
P;
P
END.
%EOJ
%JOB COMPARED,ADA
BEGIN INTEGER N; INTEGER ARRAY A (1::2, 0::9);
PROCEDURE P (PROCEDURE Q; INTEGER PROCEDURE F);
BEGIN
Q;
N := F(N + 1);
Q(N, A, A(1,*));
Q(P, F, N := 2)
END;
END.
%EOJ
%JOB TOKENS,ADA
BEGIN WRITE(1)! END.
%EOJ
%JOB FORM,ADA
BEGIN WRITE(12 + 30 END.
%EOJ
%JOB NAMELESS,ADA
BEGIN X(Y) := 1 END.
%EOJ
%JOB FLAWED,EVE
BEGIN END.
%EOJ
";

/// The listing of each job, with an empty line behind it. They were written by hand, from the definitions of the code of a phrase.
pub(crate) const LISTINGS: &str = "\
JOB 1 HANDEDON
   1  BEGIN INTEGER N;
   2  INTEGER ARRAY A (1::2);
   3  PROCEDURE P (PROCEDURE Q; INTEGER PROCEDURE F; INTEGER ARRAY B (*));
   4  P(Q, F, B);
   5  PROCEDURE R; ;
   6  INTEGER PROCEDURE G; 7;
   7  P(R, G, A);
   8  P(N := 1, N + 1, A)
   9  END.
    0    1,1  Begin
    1    1,1  EnterBlock 1,1
    2    1,1  Declare N
    3    1,1  Constant 1
    4    1,1  Push
    5    1,1  Constant 2
    6    1,1  Push
    7    1,1  Bounds 1
    8    1,1  DeclareArray INTEGER A
    9    1,1  Procedure @20 P (PROCEDURE Q; INTEGER PROCEDURE F; INTEGER ARRAY B (1))
   10    4,1  Begin
   11    4,1  HandOn 0.1
   12    4,1  Push
   13    4,1  HandOn 0.2
   14    4,1  Push
   15    4,1  HandOn 0.3
   16    4,1  Push
   17    4,1  Call 1@9 4,1
   18    4,1  End
   19    1,1  Return
   20    1,1  Procedure @23 R ()
   21    1,1  Nothing
   22    1,1  Return
   23    1,1  Procedure @28 INTEGER G ()
   24    1,1  Constant 7
   25    1,1  Make INTEGER
   26    1,1  Reserve
   27    1,1  Return
   28    1,1  Declared
   29    7,1  Begin
   30    7,1  HandOn 0@20
   31    7,1  Push
   32    7,1  HandOn 0@23
   33    7,1  Push
   34    7,1  HandOn 0.2
   35    7,1  Push
   36    7,1  Call 0@9 7,1
   37    7,1  End
   38    8,1  Begin
   39    8,1  Text @46 8,3 phrase statement
   40    8,3  Begin
   41    8,3  Variable place 1.1
   42    8,3  Push
   43    8,3  Constant 1
   44    8,3  Assign INTEGER
   45    8,1  Return
   46    8,1  MakeThunk @39
   47    8,1  Push
   48    8,1  Text @54 8,11 phrase INTEGER
   49    8,1  Variable value 1.1
   50    8,1  Push
   51    8,1  Constant 1
   52    8,1  Binary Plus
   53    8,1  Return
   54    8,1  MakeThunk @48 INTEGER
   55    8,1  Push
   56    8,1  HandOn 0.2
   57    8,1  Push
   58    8,1  Call 0@9 8,1
   59    8,1  End
   60    1,1  LeaveBlock 0.0
   61    0,0  Stop
MARKS 3

JOB 2 SUBARRAY
   1  BEGIN INTEGER N; INTEGER ARRAY A (1::2, 0::9);
   2  PROCEDURE CLEAR (INTEGER ARRAY R (*));
   3  R(N) := 0;
   4  CLEAR(A(2,*));
   5  CLEAR(A(*,N))
   6  END.
    0    1,1  Begin
    1    1,1  EnterBlock 1,1
    2    1,1  Declare N
    3    1,1  Constant 1
    4    1,1  Push
    5    1,1  Constant 2
    6    1,1  Push
    7    1,1  Constant 0
    8    1,1  Push
    9    1,1  Constant 9
   10    1,1  Push
   11    1,1  Bounds 2
   12    1,1  DeclareArray INTEGER A
   13    1,1  Procedure @22 CLEAR (INTEGER ARRAY R (1))
   14    3,1  Begin
   15    3,1  Variable value 1.1
   16    3,1  Push
   17    3,1  Element place 0.1 of 1
   18    3,1  Push
   19    3,1  Constant 0
   20    3,1  Assign INTEGER
   21    1,1  Return
   22    1,1  Declared
   23    4,1  Begin
   24    4,1  Constant 2
   25    4,1  Push
   26    4,1  Subarray 0.2 (i, *)
   27    4,1  Push
   28    4,1  Call 0@13 4,1
   29    4,1  End
   30    5,1  Begin
   31    5,1  Variable value 0.1
   32    5,1  Push
   33    5,1  Subarray 0.2 (*, i)
   34    5,1  Push
   35    5,1  Call 0@13 5,1
   36    5,1  End
   37    1,1  LeaveBlock 0.0
   38    0,0  Stop
MARKS 3

JOB 3 FUNCTION
   1  BEGIN INTEGER N;
   2  INTEGER PROCEDURE G; 7;
   3  PROCEDURE P (INTEGER VALUE X; INTEGER Y); ;
   4  P(G, G)
   5  END.
    0    1,1  Begin
    1    1,1  EnterBlock 1,1
    2    1,1  Declare N
    3    1,1  Procedure @8 INTEGER G ()
    4    1,1  Constant 7
    5    1,1  Make INTEGER
    6    1,1  Reserve
    7    1,1  Return
    8    1,1  Procedure @11 P (INTEGER VALUE X; INTEGER Y)
    9    1,1  Nothing
   10    1,1  Return
   11    1,1  Declared
   12    4,1  Begin
   13    4,1  Call 0@3 4,3
   14    4,1  End
   15    4,1  Make INTEGER
   16    4,1  Push
   17    4,1  Text @21 4,6 phrase INTEGER
   18    4,1  Call 1@3 4,6
   19    4,1  End
   20    4,1  Return
   21    4,1  MakeThunk @17 INTEGER
   22    4,1  Push
   23    4,1  Call 0@8 4,1
   24    4,1  End
   25    1,1  LeaveBlock 0.0
   26    0,0  Stop
MARKS 3

JOB 4 NESTED
   1  BEGIN INTEGER N;
   2  INTEGER PROCEDURE F (INTEGER X); X;
   3  PROCEDURE P (INTEGER Y); ;
   4  P(F(N))
   5  END.
    0    1,1  Begin
    1    1,1  EnterBlock 1,1
    2    1,1  Declare N
    3    1,1  Procedure @9 INTEGER F (INTEGER X)
    4    1,1  UseFormal value 0.1
    5    1,1  End
    6    1,1  Make INTEGER
    7    1,1  Reserve
    8    1,1  Return
    9    1,1  Procedure @12 P (INTEGER Y)
   10    1,1  Nothing
   11    1,1  Return
   12    1,1  Declared
   13    4,1  Begin
   14    4,1  Text @23 4,3 phrase INTEGER
   15    4,1  Text @18 4,5 variable INTEGER
   16    4,1  Variable asked 2.1
   17    4,1  Return
   18    4,1  MakeThunk @15 variable INTEGER
   19    4,1  Push
   20    4,1  Call 1@3 4,3
   21    4,1  End
   22    4,1  Return
   23    4,1  MakeThunk @14 INTEGER
   24    4,1  Push
   25    4,1  Call 0@9 4,1
   26    4,1  End
   27    1,1  LeaveBlock 0.0
   28    0,0  Stop
MARKS 4

JOB 5 ASKED
   1  BEGIN STRING(5) S; RECORD C (STRING(2) T); REFERENCE(C) R;
   2  PROCEDURE P (STRING(2) X);
   3  X := \"AB\";
   4  P(S(1|2));
   5  P(T(R))
   6  END.
    0    1,1  Begin
    1    1,1  EnterBlock 1,1
    2    1,1  Declare S
    3    1,1  Declare R
    4    1,1  Procedure @12 P (STRING(2) X)
    5    3,1  Begin
    6    3,1  UseFormal place 0.1
    7    3,1  End
    8    3,1  Push
    9    3,1  Constant \"AB\"
   10    3,1  Assign STRING(2)
   11    1,1  Return
   12    1,1  Declared
   13    4,1  Begin
   14    4,1  Text @20 4,3 variable STRING(2)
   15    4,1  Variable asked 1.1
   16    4,1  Push
   17    4,1  Constant 1
   18    4,1  Part 2 of 5
   19    4,1  Return
   20    4,1  MakeThunk @14 variable STRING(2)
   21    4,1  Push
   22    4,1  Call 0@4 4,1
   23    4,1  End
   24    5,1  Begin
   25    5,1  Text @29 5,3 variable STRING(2)
   26    5,1  Variable value 1.2
   27    5,1  Field asked 0 of C
   28    5,1  Return
   29    5,1  MakeThunk @25 variable STRING(2)
   30    5,1  Push
   31    5,1  Call 0@4 5,1
   32    5,1  End
   33    1,1  LeaveBlock 0.0
   34    0,0  Stop
MARKS 3

JOB 6 FORWARD
   1  BEGIN
   2  PROCEDURE P;
   3  Q;
   4  PROCEDURE Q;
   5  P;
   6  P
   7  END.
    0    1,1  Begin
    1    1,1  EnterBlock 1,1
    2    1,1  Procedure @7 P ()
    3    3,1  Begin
    4    3,1  Call 1@7 3,1
    5    3,1  End
    6    1,1  Return
    7    1,1  Procedure @12 Q ()
    8    5,1  Begin
    9    5,1  Call 1@2 5,1
   10    5,1  End
   11    1,1  Return
   12    1,1  Declared
   13    6,1  Begin
   14    6,1  Call 0@2 6,1
   15    6,1  End
   16    1,1  LeaveBlock 0.0
   17    0,0  Stop
MARKS 2

JOB 7 COMPARED
   1  BEGIN INTEGER N; INTEGER ARRAY A (1::2, 0::9);
   2  PROCEDURE P (PROCEDURE Q; INTEGER PROCEDURE F);
   3  BEGIN
   4  Q;
   5  N := F(N + 1);
   6  Q(N, A, A(1,*));
   7  Q(P, F, N := 2)
   8  END;
   9  END.
    0    1,1  Begin
    1    1,1  EnterBlock 1,1
    2    1,1  Declare N
    3    1,1  Constant 1
    4    1,1  Push
    5    1,1  Constant 2
    6    1,1  Push
    7    1,1  Constant 0
    8    1,1  Push
    9    1,1  Constant 9
   10    1,1  Push
   11    1,1  Bounds 2
   12    1,1  DeclareArray INTEGER A
   13    1,1  Procedure @101 P (PROCEDURE Q; INTEGER PROCEDURE F)
   14    3,1  Begin
   15    3,1  EnterBlock 3,1
   16    3,1  Declared
   17    4,1  Begin
   18    4,1  Compare 0.1 () @20
   19    4,1  CallThrough 0.1 4,1
   20    4,1  End
   21    5,1  Begin
   22    5,1  Variable place 1.1
   23    5,1  Push
   24    5,1  Text @30 5,8 phrase INTEGER
   25    5,1  Variable value 2.1
   26    5,1  Push
   27    5,1  Constant 1
   28    5,1  Binary Plus
   29    5,1  Return
   30    5,1  Compare 0.2 (@24) @38
   31    5,1  Prepare 0.2 0 @24
   32    5,1  End
   33    5,1  Push
   34    5,1  CallThrough 0.2 5,6
   35    5,1  PlaceBack 0 @24
   36    5,1  End
   37    5,1  AssignBack 0 INTEGER
   38    5,1  End
   39    5,1  Assign INTEGER
   40    6,1  Begin
   41    6,1  Text @44 6,3 variable INTEGER
   42    6,1  Variable asked 2.1
   43    6,1  Return
   44    6,1  Text @49 6,6 name 1.2
   45    6,1  Compare 2.2 () @47
   46    6,1  CallThrough 2.2 6,6
   47    6,1  End
   48    6,1  Return
   49    6,1  Text @54 6,1 subarray 1.2 1
   50    6,1  Constant 1
   51    6,1  Push
   52    6,1  Subarray 2.2 (i, *)
   53    6,1  Return
   54    6,1  Compare 0.1 (@41, @44, @49) @68
   55    6,1  Prepare 0.1 0 @41
   56    6,1  End
   57    6,1  Push
   58    6,1  Prepare 0.1 1 @44
   59    6,1  End
   60    6,1  Push
   61    6,1  Prepare 0.1 2 @49
   62    6,1  End
   63    6,1  Push
   64    6,1  CallThrough 0.1 6,1
   65    6,1  PlaceBack 0 @41
   66    6,1  End
   67    6,1  AssignBack 0 INTEGER
   68    6,1  End
   69    7,1  Begin
   70    7,1  Text @75 7,3 name 1@13
   71    7,1  Compare 2@13 () @73
   72    7,1  CallThrough 2@13 7,3
   73    7,1  End
   74    7,1  Return
   75    7,1  Text @80 7,6 name 0.2
   76    7,1  Compare 1.2 () @78
   77    7,1  CallThrough 1.2 7,6
   78    7,1  End
   79    7,1  Return
   80    7,1  Text @87 7,9 phrase statement
   81    7,9  Begin
   82    7,9  Variable place 2.1
   83    7,9  Push
   84    7,9  Constant 2
   85    7,9  Assign INTEGER
   86    7,1  Return
   87    7,1  Compare 0.1 (@70, @75, @80) @98
   88    7,1  Prepare 0.1 0 @70
   89    7,1  End
   90    7,1  Push
   91    7,1  Prepare 0.1 1 @75
   92    7,1  End
   93    7,1  Push
   94    7,1  Prepare 0.1 2 @80
   95    7,1  End
   96    7,1  Push
   97    7,1  CallThrough 0.1 7,1
   98    7,1  End
   99    3,1  LeaveBlock 0.3
  100    1,1  Return
  101    1,1  Declared
  102    1,1  Nothing
  103    1,1  LeaveBlock 0.0
  104    0,0  Stop
MARKS 5

JOB 8 TOKENS
   1  BEGIN WRITE(1)! END.
DIAGNOSTIC 10 AT 1,15: CHARACTER NOT USED

JOB 9 FORM
   1  BEGIN WRITE(12 + 30 END.
DIAGNOSTIC 20 AT 1,21: NOT EXPECTED HERE

JOB 10 NAMELESS
   1  BEGIN X(Y) := 1 END.
DIAGNOSTIC 30 AT 1,7: NAME NOT DECLARED
DIAGNOSTIC 30 AT 1,9: NAME NOT DECLARED

JOB 11 FLAWED
FLAW 6: ACCOUNT UNKNOWN

";
