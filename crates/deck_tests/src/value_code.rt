//! Decks of values, operators, variables, elements, records and parts of strings, and of choices, and how their code is listed.

/// The batch.
pub(crate) const DECKS: &str = "\
%ACCOUNT ADA 500
%JOB VALUES,ADA
BEGIN INTEGER N; LOGICAL L; BITS B; STRING(1) C;
;
WRITE(207, TRUE, FALSE, #0F, \"SAY \"\"HI\"\"\", MAXINTEGER);
N := -ABS N + (+N);
L := ~ODD(N);
B := ~BITSTRING(N);
N := NUMBER(B) + DECODE(C);
C := CODE(N)
END.
%EOJ
%JOB OPERATOR,ADA
BEGIN INTEGER N; LOGICAL L; BITS B;
N := N + 1 - 2 * 3 DIV 4 REM 5;
B := B AND #F OR #FF SHL N SHR 1;
L := N = 1;
L := B ~= #1;
L := \"A\" < \"B\";
L := N <= 1;
L := N > 1;
L := N >= 1
END.
%EOJ
%JOB NAMES,ADA
BEGIN INTEGER X;
PROCEDURE P (INTEGER N);
N := N + X;
FOR I := 1 UNTIL 2 DO
X := I
END.
%EOJ
%JOB ELEMENTS,ADA
BEGIN INTEGER N;
INTEGER ARRAY A, B (1::9, 0::4);
A(N, 2) := B(1, N);
END.
%EOJ
%JOB RECORDS,ADA
BEGIN RECORD C (INTEGER X; STRING(4) S); REFERENCE(C) R; LOGICAL L;
RECORD D (REFERENCE(C, D) NEXT);
REFERENCE(C, D) Q;
R := C(7, \"AB\");
R := C;
X(R) := X(R) + 1;
S(R)(1|2) := \"AB\";
L := Q IS D;
Q := D(NULL);
Q := NULL;
NEXT(Q) := R
END.
%EOJ
%JOB PARTS,ADA
BEGIN STRING(8) S; STRING(3) T; INTEGER I;
STRING PROCEDURE F; S;
S(I|3) := T;
T := S(2|6)(I|3);
T := F(0|3)
END.
%EOJ
%JOB CHOICE,ADA
BEGIN INTEGER X; LOGICAL L, M; STRING(4) S;
IF L THEN
X := 1;
IF L THEN
X := 1 ELSE
X := 2;
S := IF L THEN \"A\" ELSE \"BC\";
L := L AND M OR ~L
END.
%EOJ
%JOB CASES,ADA
BEGIN INTEGER X;
CASE X OF BEGIN
X := 1;
;
X := 3 END;
X := CASE X OF (10, 20)
END.
%EOJ
";

/// The listing of each job, with an empty line behind it. They were written by hand, from the definitions of the code of a phrase.
pub(crate) const LISTINGS: &str = "\
JOB 1 VALUES
   1  BEGIN INTEGER N; LOGICAL L; BITS B; STRING(1) C;
   2  ;
   3  WRITE(207, TRUE, FALSE, #0F, \"SAY \"\"HI\"\"\", MAXINTEGER);
   4  N := -ABS N + (+N);
   5  L := ~ODD(N);
   6  B := ~BITSTRING(N);
   7  N := NUMBER(B) + DECODE(C);
   8  C := CODE(N)
   9  END.
    0    1,1  Begin
    1    1,1  EnterBlock 1,1
    2    1,1  Declare N
    3    1,1  Declare L
    4    1,1  Declare B
    5    1,1  Declare C
    6    1,1  Declared
    7    1,1  Nothing
    8    3,1  Begin
    9    3,1  Constant 207
   10    3,1  Write new
   11    3,1  Constant TRUE
   12    3,1  Write on
   13    3,1  Constant FALSE
   14    3,1  Write on
   15    3,1  Constant #F
   16    3,1  Write on
   17    3,1  Constant \"SAY \"HI\"\"
   18    3,1  Write on
   19    3,1  Constant 2147483647
   20    3,1  Write on
   21    3,1  Nothing
   22    4,1  Begin
   23    4,1  Variable place 0.1
   24    4,1  Push
   25    4,1  Variable value 0.1
   26    4,1  Unary Absolute
   27    4,1  Unary Minus
   28    4,1  Push
   29    4,1  Variable value 0.1
   30    4,1  Binary Plus
   31    4,1  Assign INTEGER
   32    5,1  Begin
   33    5,1  Variable place 0.2
   34    5,1  Push
   35    5,1  Variable value 0.1
   36    5,1  Unary IsOdd
   37    5,1  Unary Not
   38    5,1  Assign LOGICAL
   39    6,1  Begin
   40    6,1  Variable place 0.3
   41    6,1  Push
   42    6,1  Variable value 0.1
   43    6,1  Unary ToBits
   44    6,1  Unary Complement
   45    6,1  Assign BITS
   46    7,1  Begin
   47    7,1  Variable place 0.1
   48    7,1  Push
   49    7,1  Variable value 0.3
   50    7,1  Unary ToNumber
   51    7,1  Push
   52    7,1  Variable value 0.4
   53    7,1  Unary ToCode
   54    7,1  Binary Plus
   55    7,1  Assign INTEGER
   56    8,1  Begin
   57    8,1  Variable place 0.4
   58    8,1  Push
   59    8,1  Variable value 0.1
   60    8,1  Unary ToCharacter
   61    8,1  Assign STRING(1)
   62    1,1  LeaveBlock 0.0
   63    0,0  Stop
MARKS 2

JOB 2 OPERATOR
   1  BEGIN INTEGER N; LOGICAL L; BITS B;
   2  N := N + 1 - 2 * 3 DIV 4 REM 5;
   3  B := B AND #F OR #FF SHL N SHR 1;
   4  L := N = 1;
   5  L := B ~= #1;
   6  L := \"A\" < \"B\";
   7  L := N <= 1;
   8  L := N > 1;
   9  L := N >= 1
  10  END.
    0    1,1  Begin
    1    1,1  EnterBlock 1,1
    2    1,1  Declare N
    3    1,1  Declare L
    4    1,1  Declare B
    5    1,1  Declared
    6    2,1  Begin
    7    2,1  Variable place 0.1
    8    2,1  Push
    9    2,1  Variable value 0.1
   10    2,1  Push
   11    2,1  Constant 1
   12    2,1  Binary Plus
   13    2,1  Push
   14    2,1  Constant 2
   15    2,1  Push
   16    2,1  Constant 3
   17    2,1  Binary Times
   18    2,1  Push
   19    2,1  Constant 4
   20    2,1  Binary Div
   21    2,1  Push
   22    2,1  Constant 5
   23    2,1  Binary Rem
   24    2,1  Binary Minus
   25    2,1  Assign INTEGER
   26    3,1  Begin
   27    3,1  Variable place 0.3
   28    3,1  Push
   29    3,1  Variable value 0.3
   30    3,1  Push
   31    3,1  Constant #F
   32    3,1  Binary And
   33    3,1  Push
   34    3,1  Constant #FF
   35    3,1  Push
   36    3,1  Variable value 0.1
   37    3,1  Binary Shl
   38    3,1  Push
   39    3,1  Constant 1
   40    3,1  Binary Shr
   41    3,1  Binary Or
   42    3,1  Assign BITS
   43    4,1  Begin
   44    4,1  Variable place 0.2
   45    4,1  Push
   46    4,1  Variable value 0.1
   47    4,1  Push
   48    4,1  Constant 1
   49    4,1  Relation Equal
   50    4,1  Assign LOGICAL
   51    5,1  Begin
   52    5,1  Variable place 0.2
   53    5,1  Push
   54    5,1  Variable value 0.3
   55    5,1  Push
   56    5,1  Constant #1
   57    5,1  Relation NotEqual
   58    5,1  Assign LOGICAL
   59    6,1  Begin
   60    6,1  Variable place 0.2
   61    6,1  Push
   62    6,1  Constant \"A\"
   63    6,1  Push
   64    6,1  Constant \"B\"
   65    6,1  Relation Less
   66    6,1  Assign LOGICAL
   67    7,1  Begin
   68    7,1  Variable place 0.2
   69    7,1  Push
   70    7,1  Variable value 0.1
   71    7,1  Push
   72    7,1  Constant 1
   73    7,1  Relation LessEqual
   74    7,1  Assign LOGICAL
   75    8,1  Begin
   76    8,1  Variable place 0.2
   77    8,1  Push
   78    8,1  Variable value 0.1
   79    8,1  Push
   80    8,1  Constant 1
   81    8,1  Relation Greater
   82    8,1  Assign LOGICAL
   83    9,1  Begin
   84    9,1  Variable place 0.2
   85    9,1  Push
   86    9,1  Variable value 0.1
   87    9,1  Push
   88    9,1  Constant 1
   89    9,1  Relation GreaterEqual
   90    9,1  Assign LOGICAL
   91    1,1  LeaveBlock 0.0
   92    0,0  Stop
MARKS 2

JOB 3 NAMES
   1  BEGIN INTEGER X;
   2  PROCEDURE P (INTEGER N);
   3  N := N + X;
   4  FOR I := 1 UNTIL 2 DO
   5  X := I
   6  END.
    0    1,1  Begin
    1    1,1  EnterBlock 1,1
    2    1,1  Declare X
    3    1,1  Procedure @15 P (INTEGER N)
    4    3,1  Begin
    5    3,1  UseFormal place 0.1
    6    3,1  End
    7    3,1  Push
    8    3,1  UseFormal value 0.1
    9    3,1  End
   10    3,1  Push
   11    3,1  Variable value 1.1
   12    3,1  Binary Plus
   13    3,1  Assign INTEGER
   14    1,1  Return
   15    1,1  Declared
   16    4,1  Begin
   17    4,1  Constant 1
   18    4,1  Push
   19    4,1  Constant 1
   20    4,1  Push
   21    4,1  Constant 2
   22    4,1  Push
   23    4,1  FirstTurn @31
   24    4,1  Turn I
   25    5,1  Begin
   26    5,1  Variable place 0.1
   27    5,1  Push
   28    5,1  Variable value 0.4
   29    5,1  Assign INTEGER
   30    4,1  NextTurn @24 0.3
   31    1,1  LeaveBlock 0.0
   32    0,0  Stop
MARKS 3

JOB 4 ELEMENTS
   1  BEGIN INTEGER N;
   2  INTEGER ARRAY A, B (1::9, 0::4);
   3  A(N, 2) := B(1, N);
   4  END.
    0    1,1  Begin
    1    1,1  EnterBlock 1,1
    2    1,1  Declare N
    3    1,1  Constant 1
    4    1,1  Push
    5    1,1  Constant 9
    6    1,1  Push
    7    1,1  Constant 0
    8    1,1  Push
    9    1,1  Constant 4
   10    1,1  Push
   11    1,1  Bounds 2
   12    1,1  DeclareArray INTEGER A
   13    1,1  DeclareArray INTEGER B
   14    1,1  Declared
   15    3,1  Begin
   16    3,1  Variable value 0.1
   17    3,1  Push
   18    3,1  Constant 2
   19    3,1  Push
   20    3,1  Element place 0.2 of 2
   21    3,1  Push
   22    3,1  Constant 1
   23    3,1  Push
   24    3,1  Variable value 0.1
   25    3,1  Push
   26    3,1  Element value 0.3 of 2
   27    3,1  Assign INTEGER
   28    1,1  Nothing
   29    1,1  LeaveBlock 0.0
   30    0,0  Stop
MARKS 2

JOB 5 RECORDS
   1  BEGIN RECORD C (INTEGER X; STRING(4) S); REFERENCE(C) R; LOGICAL L;
   2  RECORD D (REFERENCE(C, D) NEXT);
   3  REFERENCE(C, D) Q;
   4  R := C(7, \"AB\");
   5  R := C;
   6  X(R) := X(R) + 1;
   7  S(R)(1|2) := \"AB\";
   8  L := Q IS D;
   9  Q := D(NULL);
  10  Q := NULL;
  11  NEXT(Q) := R
  12  END.
    0    1,1  Begin
    1    1,1  EnterBlock 1,1
    2    1,1  Declare R
    3    1,1  Declare L
    4    1,1  Declare Q
    5    1,1  Declared
    6    4,1  Begin
    7    4,1  Variable place 0.1
    8    4,1  Push
    9    4,1  Constant 7
   10    4,1  Make INTEGER
   11    4,1  Push
   12    4,1  Constant \"AB\"
   13    4,1  Make STRING(4)
   14    4,1  Push
   15    4,1  MakeRecord 2 of C
   16    4,1  Assign REFERENCE(C)
   17    5,1  Begin
   18    5,1  Variable place 0.1
   19    5,1  Push
   20    5,1  MakeRecordAlone 2 of C
   21    5,1  Assign REFERENCE(C)
   22    6,1  Begin
   23    6,1  Variable value 0.1
   24    6,1  Field place 0 of C
   25    6,1  Push
   26    6,1  Variable value 0.1
   27    6,1  Field value 0 of C
   28    6,1  Push
   29    6,1  Constant 1
   30    6,1  Binary Plus
   31    6,1  Assign INTEGER
   32    7,1  Begin
   33    7,1  Variable value 0.1
   34    7,1  Field place 1 of C
   35    7,1  Push
   36    7,1  Constant 1
   37    7,1  Part 2 of 4
   38    7,1  Push
   39    7,1  Constant \"AB\"
   40    7,1  Assign STRING(2)
   41    8,1  Begin
   42    8,1  Variable place 0.2
   43    8,1  Push
   44    8,1  Variable value 0.3
   45    8,1  IsClass D
   46    8,1  Assign LOGICAL
   47    9,1  Begin
   48    9,1  Variable place 0.3
   49    9,1  Push
   50    9,1  Constant NULL
   51    9,1  Make REFERENCE(C, D)
   52    9,1  Push
   53    9,1  MakeRecord 1 of D
   54    9,1  Assign REFERENCE(C, D)
   55   10,1  Begin
   56   10,1  Variable place 0.3
   57   10,1  Push
   58   10,1  Constant NULL
   59   10,1  Assign REFERENCE(C, D)
   60   11,1  Begin
   61   11,1  Variable value 0.3
   62   11,1  Field place 0 of D
   63   11,1  Push
   64   11,1  Variable value 0.1
   65   11,1  Assign REFERENCE(C, D)
   66    1,1  LeaveBlock 0.0
   67    0,0  Stop
MARKS 2

JOB 6 PARTS
   1  BEGIN STRING(8) S; STRING(3) T; INTEGER I;
   2  STRING PROCEDURE F; S;
   3  S(I|3) := T;
   4  T := S(2|6)(I|3);
   5  T := F(0|3)
   6  END.
    0    1,1  Begin
    1    1,1  EnterBlock 1,1
    2    1,1  Declare S
    3    1,1  Declare T
    4    1,1  Declare I
    5    1,1  Procedure @10 STRING(16) F ()
    6    1,1  Variable value 1.1
    7    1,1  Make STRING(16)
    8    1,1  Reserve
    9    1,1  Return
   10    1,1  Declared
   11    3,1  Begin
   12    3,1  Variable place 0.1
   13    3,1  Push
   14    3,1  Variable value 0.3
   15    3,1  Part 3 of 8
   16    3,1  Push
   17    3,1  Variable value 0.2
   18    3,1  Assign STRING(3)
   19    4,1  Begin
   20    4,1  Variable place 0.2
   21    4,1  Push
   22    4,1  Variable value 0.1
   23    4,1  Push
   24    4,1  Constant 2
   25    4,1  Part 6 of 8
   26    4,1  Push
   27    4,1  Variable value 0.3
   28    4,1  Part 3 of 6
   29    4,1  Assign STRING(3)
   30    5,1  Begin
   31    5,1  Variable place 0.2
   32    5,1  Push
   33    5,1  Call 0@5 5,6
   34    5,1  End
   35    5,1  Push
   36    5,1  Constant 0
   37    5,1  Part 3 of 16
   38    5,1  Assign STRING(3)
   39    1,1  LeaveBlock 0.0
   40    0,0  Stop
MARKS 2

JOB 7 CHOICE
   1  BEGIN INTEGER X; LOGICAL L, M; STRING(4) S;
   2  IF L THEN
   3  X := 1;
   4  IF L THEN
   5  X := 1 ELSE
   6  X := 2;
   7  S := IF L THEN \"A\" ELSE \"BC\";
   8  L := L AND M OR ~L
   9  END.
    0    1,1  Begin
    1    1,1  EnterBlock 1,1
    2    1,1  Declare X
    3    1,1  Declare L
    4    1,1  Declare M
    5    1,1  Declare S
    6    1,1  Declared
    7    2,1  Begin
    8    2,1  Variable value 0.2
    9    2,1  JumpUnless @16
   10    3,1  Begin
   11    3,1  Variable place 0.1
   12    3,1  Push
   13    3,1  Constant 1
   14    3,1  Assign INTEGER
   15    2,1  Jump @17
   16    2,1  Nothing
   17    4,1  Begin
   18    4,1  Variable value 0.2
   19    4,1  JumpUnless @26
   20    5,1  Begin
   21    5,1  Variable place 0.1
   22    5,1  Push
   23    5,1  Constant 1
   24    5,1  Assign INTEGER
   25    4,1  Jump @31
   26    6,1  Begin
   27    6,1  Variable place 0.1
   28    6,1  Push
   29    6,1  Constant 2
   30    6,1  Assign INTEGER
   31    7,1  Begin
   32    7,1  Variable place 0.4
   33    7,1  Push
   34    7,1  Variable value 0.2
   35    7,1  JumpUnless @38
   36    7,1  Constant \"A\"
   37    7,1  Jump @39
   38    7,1  Constant \"BC\"
   39    7,1  Make STRING(2)
   40    7,1  Assign STRING(4)
   41    8,1  Begin
   42    8,1  Variable place 0.2
   43    8,1  Push
   44    8,1  Variable value 0.2
   45    8,1  JumpUnless @48
   46    8,1  Variable value 0.3
   47    8,1  Jump @49
   48    8,1  Constant FALSE
   49    8,1  JumpUnless @52
   50    8,1  Constant TRUE
   51    8,1  Jump @54
   52    8,1  Variable value 0.2
   53    8,1  Unary Not
   54    8,1  Assign LOGICAL
   55    1,1  LeaveBlock 0.0
   56    0,0  Stop
MARKS 2

JOB 8 CASES
   1  BEGIN INTEGER X;
   2  CASE X OF BEGIN
   3  X := 1;
   4  ;
   5  X := 3 END;
   6  X := CASE X OF (10, 20)
   7  END.
    0    1,1  Begin
    1    1,1  EnterBlock 1,1
    2    1,1  Declare X
    3    1,1  Declared
    4    2,1  Begin
    5    2,1  Variable value 0.1
    6    2,1  Choose 3
    7    2,1  Jump @10
    8    2,1  Jump @16
    9    2,1  Jump @18
   10    3,1  Begin
   11    3,1  Variable place 0.1
   12    3,1  Push
   13    3,1  Constant 1
   14    3,1  Assign INTEGER
   15    2,1  Jump @24
   16    2,1  Nothing
   17    2,1  Jump @24
   18    5,1  Begin
   19    5,1  Variable place 0.1
   20    5,1  Push
   21    5,1  Constant 3
   22    5,1  Assign INTEGER
   23    2,1  Jump @24
   24    6,1  Begin
   25    6,1  Variable place 0.1
   26    6,1  Push
   27    6,1  Variable value 0.1
   28    6,1  Choose 2
   29    6,1  Jump @31
   30    6,1  Jump @33
   31    6,1  Constant 10
   32    6,1  Jump @35
   33    6,1  Constant 20
   34    6,1  Jump @35
   35    6,1  Make INTEGER
   36    6,1  Assign INTEGER
   37    1,1  LeaveBlock 0.0
   38    0,0  Stop
MARKS 2

";
