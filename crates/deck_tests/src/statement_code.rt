//! Decks of blocks, jumps, loops, transfers and assignments, and of procedures and what is passed to them, and how their code is listed.

/// The batch.
pub(crate) const DECKS: &str = "\
%ACCOUNT ADA 500
%JOB BLOCKS,ADA
BEGIN INTEGER N;
BEGIN LOGICAL L; INTEGER ARRAY A (1::N);
INTEGER N;
N := A(1);
BEGIN ; END
END;
N := BEGIN INTEGER M;
M := 1;
M END
END.
%EOJ
%JOB JUMPS,ADA
BEGIN INTEGER N;
PROCEDURE P;
GOTO OUT;
MORE: N := N + 1;
BEGIN
IF N = 9 THEN
GOTO OUT;
GO TO MORE
END;
OUT: WRITE(N)
END.
%EOJ
%JOB WHILES,ADA
BEGIN INTEGER N; LOGICAL L;
WHILE L DO
N := N + 1;
WHILE N < 9 DO
END.
%EOJ
%JOB FORS,ADA
BEGIN INTEGER N;
FOR I := N STEP -2 UNTIL 1 DO
FOR J := I, 7 DO
N := I + J
END.
%EOJ
%JOB TRANSFER,ADA
BEGIN INTEGER N; STRING(80) S; INTEGER ARRAY A (1::2);
READ(N, A(N));
READON(N);
READCARD(S);
WRITE(N, S);
WRITEON(N + 1);
IOCONTROL(2);
ASSERT N = 1
END.
%EOJ
%JOB ASSIGNED,ADA
BEGIN STRING(3) S; STRING(5) T;
S := T := \"AB\"
END.
%EOJ
%JOB PROCS,ADA
BEGIN INTEGER N;
INTEGER PROCEDURE F (INTEGER VALUE X);
BEGIN INTEGER PROCEDURE G;
X + N;
G + 1 END;
PROCEDURE NONE; ;
N := F(2);
NONE
END.
%EOJ
%JOB PASSED,ADA
BEGIN INTEGER N; STRING(5) S; INTEGER ARRAY A (1::2);
PROCEDURE P (STRING(4) VALUE X; STRING(2) RESULT Y;
INTEGER VALUE RESULT Z);
Y := \"Y\";
P(\"AB\", S, A(N))
END.
%EOJ
%JOB BYNAME,ADA
BEGIN INTEGER N; STRING(2) S;
PROCEDURE P (INTEGER X; LOGICAL Y);
BEGIN
X := X + 1;
P(X, ~Y)
END;
PROCEDURE Q (STRING(3) Z); ;
P(N, N = 2);
Q(S)
END.
%EOJ
%JOB CONTROL,ADA
BEGIN INTEGER N;
PROCEDURE Q (INTEGER Z); ;
FOR I := 1 UNTIL 2 DO
Q(I)
END.
%EOJ
%JOB WIDTHS,ADA
BEGIN I_W := S_W + 1;
WRITE(1, I_W := 2, S_W := 3, 4);
WRITE(5)
END.
%EOJ
";

/// The listing of each job, with an empty line behind it. They were written by hand, from the definitions of the code of a phrase.
pub(crate) const LISTINGS: &str = "\
JOB 1 BLOCKS
   1  BEGIN INTEGER N;
   2  BEGIN LOGICAL L; INTEGER ARRAY A (1::N);
   3  INTEGER N;
   4  N := A(1);
   5  BEGIN ; END
   6  END;
   7  N := BEGIN INTEGER M;
   8  M := 1;
   9  M END
  10  END.
    0    1,1  Begin
    1    1,1  EnterBlock 1,1
    2    1,1  Declare N
    3    1,1  Declared
    4    2,1  Begin
    5    2,1  EnterBlock 2,1
    6    2,1  Declare L
    7    2,1  Constant 1
    8    2,1  Push
    9    2,1  Variable value 0.1
   10    2,1  Push
   11    2,1  Bounds 1
   12    2,1  DeclareArray INTEGER A
   13    2,1  Declare N
   14    2,1  Declared
   15    4,1  Begin
   16    4,1  Variable place 0.6
   17    4,1  Push
   18    4,1  Constant 1
   19    4,1  Push
   20    4,1  Element value 0.5 of 1
   21    4,1  Assign INTEGER
   22    5,1  Begin
   23    5,1  EnterBlock 5,1
   24    5,1  Declared
   25    5,1  Nothing
   26    5,1  Nothing
   27    5,1  LeaveBlock 0.8
   28    2,1  LeaveBlock 0.3
   29    7,1  Begin
   30    7,1  Variable place 0.1
   31    7,1  Push
   32    7,1  EnterBlock 7,6
   33    7,1  Declare M
   34    7,1  Declared
   35    8,1  Begin
   36    8,1  Variable place 0.4
   37    8,1  Push
   38    8,1  Constant 1
   39    8,1  Assign INTEGER
   40    7,1  Variable value 0.4
   41    7,1  LeaveBlock 0.3
   42    7,1  Assign INTEGER
   43    1,1  LeaveBlock 0.0
   44    0,0  Stop
MARKS 6

JOB 2 JUMPS
   1  BEGIN INTEGER N;
   2  PROCEDURE P;
   3  GOTO OUT;
   4  MORE: N := N + 1;
   5  BEGIN
   6  IF N = 9 THEN
   7  GOTO OUT;
   8  GO TO MORE
   9  END;
  10  OUT: WRITE(N)
  11  END.
    0    1,1  Begin
    1    1,1  EnterBlock 1,1
    2    1,1  Declare N
    3    1,1  Procedure @6 P ()
    4    3,1  Goto 1.2 @29
    5    1,1  Return
    6    1,1  Declared
    7    4,7  Begin
    8    4,7  Variable place 0.1
    9    4,7  Push
   10    4,7  Variable value 0.1
   11    4,7  Push
   12    4,7  Constant 1
   13    4,7  Binary Plus
   14    4,7  Assign INTEGER
   15    5,1  Begin
   16    5,1  EnterBlock 5,1
   17    5,1  Declared
   18    6,1  Begin
   19    6,1  Variable value 0.1
   20    6,1  Push
   21    6,1  Constant 9
   22    6,1  Relation Equal
   23    6,1  JumpUnless @26
   24    7,1  Goto 0.2 @29
   25    6,1  Jump @27
   26    6,1  Nothing
   27    8,1  Goto 0.2 @7
   28    5,1  LeaveBlock 0.3
   29   10,6  Begin
   30   10,6  Variable value 0.1
   31   10,6  Write new
   32   10,6  Nothing
   33    1,1  LeaveBlock 0.0
   34    0,0  Stop
MARKS 4

JOB 3 WHILES
   1  BEGIN INTEGER N; LOGICAL L;
   2  WHILE L DO
   3  N := N + 1;
   4  WHILE N < 9 DO
   5  END.
    0    1,1  Begin
    1    1,1  EnterBlock 1,1
    2    1,1  Declare N
    3    1,1  Declare L
    4    1,1  Declared
    5    2,1  Begin
    6    2,1  Jump @15
    7    3,1  Begin
    8    3,1  Variable place 0.1
    9    3,1  Push
   10    3,1  Variable value 0.1
   11    3,1  Push
   12    3,1  Constant 1
   13    3,1  Binary Plus
   14    3,1  Assign INTEGER
   15    2,1  Variable value 0.2
   16    2,1  Again @7
   17    4,1  Begin
   18    4,1  Jump @20
   19    4,1  Nothing
   20    4,1  Variable value 0.1
   21    4,1  Push
   22    4,1  Constant 9
   23    4,1  Relation Less
   24    4,1  Again @19
   25    1,1  LeaveBlock 0.0
   26    0,0  Stop
MARKS 2

JOB 4 FORS
   1  BEGIN INTEGER N;
   2  FOR I := N STEP -2 UNTIL 1 DO
   3  FOR J := I, 7 DO
   4  N := I + J
   5  END.
    0    1,1  Begin
    1    1,1  EnterBlock 1,1
    2    1,1  Declare N
    3    1,1  Declared
    4    2,1  Begin
    5    2,1  Variable value 0.1
    6    2,1  Push
    7    2,1  Constant 2
    8    2,1  Unary Minus
    9    2,1  Push
   10    2,1  Constant 1
   11    2,1  Push
   12    2,1  FirstTurn @31
   13    2,1  Turn I
   14    3,1  Begin
   15    3,1  Jump @25
   16    4,1  Begin
   17    4,1  Variable place 0.1
   18    4,1  Push
   19    4,1  Variable value 0.4
   20    4,1  Push
   21    4,1  Variable value 0.6
   22    4,1  Binary Plus
   23    4,1  Assign INTEGER
   24    3,1  EndTurn 0.5
   25    3,1  Variable value 0.4
   26    3,1  ListTurn @16 J
   27    3,1  Constant 7
   28    3,1  ListTurn @16 J
   29    3,1  Nothing
   30    2,1  NextTurn @13 0.3
   31    1,1  LeaveBlock 0.0
   32    0,0  Stop
MARKS 4

JOB 5 TRANSFER
   1  BEGIN INTEGER N; STRING(80) S; INTEGER ARRAY A (1::2);
   2  READ(N, A(N));
   3  READON(N);
   4  READCARD(S);
   5  WRITE(N, S);
   6  WRITEON(N + 1);
   7  IOCONTROL(2);
   8  ASSERT N = 1
   9  END.
    0    1,1  Begin
    1    1,1  EnterBlock 1,1
    2    1,1  Declare N
    3    1,1  Declare S
    4    1,1  Constant 1
    5    1,1  Push
    6    1,1  Constant 2
    7    1,1  Push
    8    1,1  Bounds 1
    9    1,1  DeclareArray INTEGER A
   10    1,1  Declared
   11    2,1  Begin
   12    2,1  Variable place 0.1
   13    2,1  Read new INTEGER
   14    2,1  Variable value 0.1
   15    2,1  Push
   16    2,1  Element place 0.3 of 1
   17    2,1  Read on INTEGER
   18    2,1  Nothing
   19    3,1  Begin
   20    3,1  Variable place 0.1
   21    3,1  Read on INTEGER
   22    3,1  Nothing
   23    4,1  Begin
   24    4,1  Variable place 0.2
   25    4,1  ReadCard STRING(80)
   26    4,1  Nothing
   27    5,1  Begin
   28    5,1  Variable value 0.1
   29    5,1  Write new
   30    5,1  Variable value 0.2
   31    5,1  Write on
   32    5,1  Nothing
   33    6,1  Begin
   34    6,1  Variable value 0.1
   35    6,1  Push
   36    6,1  Constant 1
   37    6,1  Binary Plus
   38    6,1  Write on
   39    6,1  Nothing
   40    7,1  Begin
   41    7,1  Constant 2
   42    7,1  IoControl
   43    8,1  Begin
   44    8,1  Variable value 0.1
   45    8,1  Push
   46    8,1  Constant 1
   47    8,1  Relation Equal
   48    8,1  Assert
   49    1,1  LeaveBlock 0.0
   50    0,0  Stop
MARKS 2

JOB 6 ASSIGNED
   1  BEGIN STRING(3) S; STRING(5) T;
   2  S := T := \"AB\"
   3  END.
    0    1,1  Begin
    1    1,1  EnterBlock 1,1
    2    1,1  Declare S
    3    1,1  Declare T
    4    1,1  Declared
    5    2,1  Begin
    6    2,1  Variable place 0.1
    7    2,1  Push
    8    2,1  Variable place 0.2
    9    2,1  Push
   10    2,1  Constant \"AB\"
   11    2,1  Assign giving STRING(5)
   12    2,1  Assign STRING(3)
   13    1,1  LeaveBlock 0.0
   14    0,0  Stop
MARKS 2

JOB 7 PROCS
   1  BEGIN INTEGER N;
   2  INTEGER PROCEDURE F (INTEGER VALUE X);
   3  BEGIN INTEGER PROCEDURE G;
   4  X + N;
   5  G + 1 END;
   6  PROCEDURE NONE; ;
   7  N := F(2);
   8  NONE
   9  END.
    0    1,1  Begin
    1    1,1  EnterBlock 1,1
    2    1,1  Declare N
    3    1,1  Procedure @23 INTEGER F (INTEGER VALUE X)
    4    1,1  EnterBlock 3,1
    5    1,1  Procedure @13 INTEGER G ()
    6    1,1  Variable value 1.1
    7    1,1  Push
    8    1,1  Variable value 2.1
    9    1,1  Binary Plus
   10    1,1  Make INTEGER
   11    1,1  Reserve
   12    1,1  Return
   13    1,1  Declared
   14    1,1  Call 0@5 5,1
   15    1,1  End
   16    1,1  Push
   17    1,1  Constant 1
   18    1,1  Binary Plus
   19    1,1  LeaveBlock 0.2
   20    1,1  Make INTEGER
   21    1,1  Reserve
   22    1,1  Return
   23    1,1  Procedure @26 NONE ()
   24    1,1  Nothing
   25    1,1  Return
   26    1,1  Declared
   27    7,1  Begin
   28    7,1  Variable place 0.1
   29    7,1  Push
   30    7,1  Constant 2
   31    7,1  Make INTEGER
   32    7,1  Push
   33    7,1  Call 0@3 7,6
   34    7,1  End
   35    7,1  Assign INTEGER
   36    8,1  Begin
   37    8,1  Call 0@23 8,1
   38    8,1  End
   39    1,1  LeaveBlock 0.0
   40    0,0  Stop
MARKS 4

JOB 8 PASSED
   1  BEGIN INTEGER N; STRING(5) S; INTEGER ARRAY A (1::2);
   2  PROCEDURE P (STRING(4) VALUE X; STRING(2) RESULT Y;
   3  INTEGER VALUE RESULT Z);
   4  Y := \"Y\";
   5  P(\"AB\", S, A(N))
   6  END.
    0    1,1  Begin
    1    1,1  EnterBlock 1,1
    2    1,1  Declare N
    3    1,1  Declare S
    4    1,1  Constant 1
    5    1,1  Push
    6    1,1  Constant 2
    7    1,1  Push
    8    1,1  Bounds 1
    9    1,1  DeclareArray INTEGER A
   10    1,1  Procedure @17 P (STRING(4) VALUE X; STRING(2) RESULT Y; INTEGER VALUE RESULT Z)
   11    4,1  Begin
   12    4,1  Variable place 0.2
   13    4,1  Push
   14    4,1  Constant \"Y\"
   15    4,1  Assign STRING(2)
   16    1,1  Return
   17    1,1  Declared
   18    5,1  Begin
   19    5,1  Constant \"AB\"
   20    5,1  Make STRING(4)
   21    5,1  Push
   22    5,1  Reserve
   23    5,1  Text @28 5,12 variable INTEGER
   24    5,1  Variable value 1.1
   25    5,1  Push
   26    5,1  Element asked 1.3 of 1
   27    5,1  Return
   28    5,1  Aside @23 value INTEGER
   29    5,1  End
   30    5,1  Push
   31    5,1  Call 0@10 5,1
   32    5,1  Variable place 0.2
   33    5,1  AssignBack 1 STRING(5)
   34    5,1  Aside @23 place
   35    5,1  End
   36    5,1  AssignBack 2 INTEGER
   37    5,1  End
   38    1,1  LeaveBlock 0.0
   39    0,0  Stop
MARKS 3

JOB 9 BYNAME
   1  BEGIN INTEGER N; STRING(2) S;
   2  PROCEDURE P (INTEGER X; LOGICAL Y);
   3  BEGIN
   4  X := X + 1;
   5  P(X, ~Y)
   6  END;
   7  PROCEDURE Q (STRING(3) Z); ;
   8  P(N, N = 2);
   9  Q(S)
  10  END.
    0    1,1  Begin
    1    1,1  EnterBlock 1,1
    2    1,1  Declare N
    3    1,1  Declare S
    4    1,1  Procedure @36 P (INTEGER X; LOGICAL Y)
    5    3,1  Begin
    6    3,1  EnterBlock 3,1
    7    3,1  Declared
    8    4,1  Begin
    9    4,1  UseFormal place 0.1
   10    4,1  End
   11    4,1  Push
   12    4,1  UseFormal value 0.1
   13    4,1  End
   14    4,1  Push
   15    4,1  Constant 1
   16    4,1  Binary Plus
   17    4,1  Assign INTEGER
   18    5,1  Begin
   19    5,1  Text @23 5,3 variable INTEGER
   20    5,1  UseFormal asked 1.1
   21    5,1  End
   22    5,1  Return
   23    5,1  MakeThunk @19 variable INTEGER
   24    5,1  Push
   25    5,1  Text @30 5,6 phrase LOGICAL
   26    5,1  UseFormal value 1.2
   27    5,1  End
   28    5,1  Unary Not
   29    5,1  Return
   30    5,1  MakeThunk @25 LOGICAL
   31    5,1  Push
   32    5,1  Call 1@4 5,1
   33    5,1  End
   34    3,1  LeaveBlock 0.3
   35    1,1  Return
   36    1,1  Procedure @39 Q (STRING(3) Z)
   37    1,1  Nothing
   38    1,1  Return
   39    1,1  Declared
   40    8,1  Begin
   41    8,1  Text @44 8,3 variable INTEGER
   42    8,1  Variable asked 1.1
   43    8,1  Return
   44    8,1  MakeThunk @41 variable INTEGER
   45    8,1  Push
   46    8,1  Text @52 8,6 phrase LOGICAL
   47    8,1  Variable value 1.1
   48    8,1  Push
   49    8,1  Constant 2
   50    8,1  Relation Equal
   51    8,1  Return
   52    8,1  MakeThunk @46 LOGICAL
   53    8,1  Push
   54    8,1  Call 0@4 8,1
   55    8,1  End
   56    9,1  Begin
   57    9,1  Text @60 9,3 variable STRING(2)
   58    9,1  Variable asked 1.2
   59    9,1  Return
   60    9,1  MakeThunk @57 STRING(3)
   61    9,1  Push
   62    9,1  Call 0@36 9,1
   63    9,1  End
   64    1,1  LeaveBlock 0.0
   65    0,0  Stop
MARKS 5

JOB 10 CONTROL
   1  BEGIN INTEGER N;
   2  PROCEDURE Q (INTEGER Z); ;
   3  FOR I := 1 UNTIL 2 DO
   4  Q(I)
   5  END.
    0    1,1  Begin
    1    1,1  EnterBlock 1,1
    2    1,1  Declare N
    3    1,1  Procedure @6 Q (INTEGER Z)
    4    1,1  Nothing
    5    1,1  Return
    6    1,1  Declared
    7    3,1  Begin
    8    3,1  Constant 1
    9    3,1  Push
   10    3,1  Constant 1
   11    3,1  Push
   12    3,1  Constant 2
   13    3,1  Push
   14    3,1  FirstTurn @25
   15    3,1  Turn I
   16    4,1  Begin
   17    4,1  Text @20 4,3 phrase INTEGER
   18    4,1  Variable asked 1.4
   19    4,1  Return
   20    4,1  MakeThunk @17 INTEGER
   21    4,1  Push
   22    4,1  Call 0@3 4,1
   23    4,1  End
   24    3,1  NextTurn @15 0.3
   25    1,1  LeaveBlock 0.0
   26    0,0  Stop
MARKS 4

JOB 11 WIDTHS
   1  BEGIN I_W := S_W + 1;
   2  WRITE(1, I_W := 2, S_W := 3, 4);
   3  WRITE(5)
   4  END.
    0    1,1  Begin
    1    1,1  EnterBlock 1,1
    2    1,1  Declared
    3    1,7  Begin
    4    1,7  Standard place Columns
    5    1,7  Push
    6    1,7  Standard value Blanks
    7    1,7  Push
    8    1,7  Constant 1
    9    1,7  Binary Plus
   10    1,7  Assign INTEGER
   11    2,1  Begin
   12    2,1  Constant 1
   13    2,1  Write new
   14    2,1  Constant 2
   15    2,1  SetWidth Columns
   16    2,1  Constant 3
   17    2,1  SetWidth Blanks 0.2
   18    2,1  Constant 4
   19    2,1  Write on 0.2
   20    2,1  CloseWidths 0.2
   21    3,1  Begin
   22    3,1  Constant 5
   23    3,1  Write new
   24    3,1  Nothing
   25    1,1  LeaveBlock 0.0
   26    0,0  Stop
MARKS 3

";
