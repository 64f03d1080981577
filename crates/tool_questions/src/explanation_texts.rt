//! The texts of explanations, a line for each: the word, whose word it is, and what is said of it. The rows of the
//! guide are the same texts.

pub const EXPLANATIONS: &str = "\
TooManyPieces, of a program: more than 100,000 statements, as generated vectors. Do this: scan an array in a loop.
Unterminated, of a program: the file was cut, the last ; is missing, or something follows it. Do this: get the file anew; add the ;.
BadByte, of a program: a byte-order mark at the start, a typographic quote, a no-break space. Do this: save the file as plain ASCII.
OpenString, of a program: a quote is missing, or a string goes over two lines. Do this: close it; join parts by commas.
Compressed, of a program: an array is compressed (@). Do this: let the vendor's tool write arrays in hexadecimal; section 1 of the guide.
NameTooLong, of a program: a name that a tool made has more than 32 characters. Do this: shorten it everywhere.
NumberTooLarge, of a program: a number above 2,147,483,648, as a mask of 32 bits. Do this: write a negative number, or an array.
TooDeep, of a program: over 32 open brackets or IFs in one statement, or over 256 operators. Do this: divide the statement.
UnknownStatement, of a program: a misspelt word, or a statement of another language, as SVF. Do this: correct it; take the STAPL file.
Unsupported, of a program: TRST, VECTOR, VMAP, MAX, CEIL, FLOOR, LOG2 or SQRT. Do this: write what can stand in its place; section 1 of the guide.
Syntax, of a program: a ; is missing, so two statements are one. Do this: look at the end of the statement.
Syntax, of a program: a form that this language leaves out: a list of bits as 1,0,1, an operator between arrays, a size that is no number, 0x. Do this: write #101 or $5; a loop over the elements; the number; section 1 of the guide.
Order, of a program: a statement outside procedures, a NOTE or ACTION too late, no ENDPROC before. Do this: move it, or add the ENDPROC.
Duplicate, of a program: a name or a label is declared twice, as in joined files. Do this: rename one.
Undefined, of a program: a procedure, label or variable is missing or misspelt. Do this: add it, or correct the name.
NotVisible, of a program: a variable of another block, which is not named after USES. Do this: name the block after USES.
TypeMismatch, of a program: an INTEGER as a condition, or bits and integers mixed. Do this: write IF I != 0 THEN, or use INT or BOOL.
NotStable, of a program: a stop in another state than RESET, IDLE, DRPAUSE and IRPAUSE. Do this: name one of the four.
SizeLimit, of a program: an array of no or too many elements, too many initial values. Do this: correct the size; divide the array.
NotClosed, of a program: the last ENDPROC or ENDDATA is missing; the file was cut. Do this: get the file anew, or add it.
NothingToDo, of a program: the file is empty, or has no ACTION. Do this: get the file anew, or add an ACTION.
TooLong, of a program: more than 4,194,304 bytes, as with long binary literals. Do this: write hexadecimal literals, or several files.
Form, of a board: a word is missing or misspelt, an opcode has 0x, a comment stands after words. Do this: compare the line with section 3 of the guide.
Form, of a board: at the start of the board: board and program are exchanged in the command. Do this: exchange them.
Range, of a board: an instruction length below 2 or above 64. Do this: take that of the data sheet.
Range, of a board: an opcode of all ones, or with more bits than instructions have. Do this: leave an opcode of all ones out: it is BYPASS.
Range, of a board: an identity whose lowest bit is not 1. Do this: read its digits again.
Range, of a board: a const that has not just the digits of its length. Do this: write each digit: 5 bits are two digits, the first of them 0 or 1.
Duplicate, of a board: two devices or two registers of one name, or an opcode twice in a device. Do this: rename, or drop one.
Misplaced, of a board: a reg line that stands after a plain or a flash. Do this: put it after its regs.
Empty, of a board: a regs without a reg line, or no device at all. Do this: add one, or write plain.
TooMany, of a board: more than 64 devices, or more than 64 registers in one. Do this: leave out what the file does not use.
TooLong, of a board: more than 1,048,576 bytes: another file. Do this: name the board.
TooLong, of a code: more than 268,435,520 bytes: another file. Do this: name the file that compile wrote.
Cut, of a code: the copy is not whole, or the disk was full. Do this: compile the program again, and copy the file as bytes.
Field, of a code: no code: a program, the line of a refusal, byte code of another player; or changed bytes. Do this: compile the program again, and copy the file as bytes.
Extra, of a code: bytes follow the code: a line feed that an editor added, or a second file. Do this: compile the program again, and copy the file as bytes.
Invalid, of a code: bytes inside were changed on the way. Do this: compile the program again, and copy the file as bytes.
usage, of the words: R usage 1: the mode is missing, misspelt or in capitals. Do this: begin with play, check, list, compile, run or soak.
usage, of the words: R usage n, with n one above the count of words: a key is missing. Do this: give it; play needs board, program and action.
usage, of the words: R usage n at a key: it is misspelt, in capitals, given twice, or not one of the mode. Do this: see --help; check takes program alone.
usage, of the words: R usage n at a value: it is empty, or there is a blank around = or after a comma. Do this: write one word, key=value.
usage, of the words: R usage n at a number: it has a leading zero, or is too large. Do this: write it as in turns=1000.
action, of the words: the file has no action of this name. Do this: see list.
choice, of the words: a name of do is not optional in the action, or one of skip not recommended. Do this: see list.
place, of the words: the board has fewer devices than place. Do this: count the devices from 1.
DivideByZero, in a play: a count or a period that was never set. Do this: set it before the / or %.
IndexOutOfRange, in a play: a loop that goes one too far, or too short an array. Do this: stop at the size less 1, which is the last index.
RangeReversed, in a play: in run alone, of an old code file: a range with its low index first, A[0..7]. Do this: compile the program again; then it means the bits in the other order.
LengthMismatch, in a play: a scan longer than its array, or a CAPTURE into a shorter one. Do this: make the array as long.
BadLength, in a play: a scan of length 0, as by a variable that was never set; a padding above 65,536. Do this: set the length.
BadCount, in a play: a WAIT of over 16,777,216 clocks or below 0; a FREQUENCY of 0. Do this: write two WAITs in place of one; correct it.
ShiftCount, in a play: a shift by 32 or more, or below 0. Do this: keep it in 0 to 31.
ZeroStep, in a play: a STEP by a variable that is 0. Do this: set the step.
NoRecord, in a play: a POP without its PUSH, or with a FOR between; a NEXT without its FOR. Do this: pair them.
RecordsFull, in a play: 16,384 calls without end, or loops that are left by GOTO and begun again. Do this: leave a loop by its NEXT.
BadChar, in a play: CHR$ of a number above 255 or below 0. Do this: write CHR$(N & 255).
spent, in a play: the turns were used up: the file waits without end, or needs more of them. Do this: see what it polls; give more by turns.
0, an exit code: it is done. Do this: nothing; the last line is E exit 0, or that of a check or a list.
1, an exit code: the file ended the play with its own code k, E exit k. Do this: read its P lines.
2, an exit code: a statement could not be played, E fault Fault at n. Do this: see --explain Fault and --piece n.
3, an exit code: the turns were used up, E spent. Do this: see --explain spent.
4, an exit code: the program is refused, R program p line n Reason. Do this: see --explain Reason and --piece p.
5, an exit code: the board is refused, R board n Reason. Do this: see --explain Reason and --line n.
6, an exit code: the words do not fit the file or the board, R action, R choice or R place. Do this: see --explain action, choice or place.
7, an exit code: the words are not right, R usage n. Do this: see --explain usage, and the word n.
8, an exit code: the code is refused, R code offset Reason. Do this: see --explain Reason.
9, an exit code: a file could not be opened or read; nothing is written. Do this: look at the paths; a folder is no file.
10, an exit code: the output could not be written; what came before may be cut. Do this: make room on the disk; read the pipe to its end.
11, an exit code: there was no memory, or a word is not UTF-8; nothing is written. Do this: free memory; write the words in UTF-8.
12, an exit code: of print, rewrite, trace, wave or link: the new text, the trace or the session is too long. Do this: see --explain TooLarge and TooLong; a session of link has at most 16,777,216 bytes.
13, an exit code: of rewrite: the program sets a padding itself, R padding n. Do this: see --explain padding and --piece n.
14, an exit code: of link: a byte is none of the protocol; the answers before it are written. Do this: look at what the debugger sent.
15, an exit code: of trace: a clock differs, trace differs clock i. Do this: see --explain differs.
16, an exit code: of trace or wave: a line of clocks is bad, R trace n BadLine. Do this: see --explain BadLine, and line n.
17, an exit code: of quiet: the play is not quiet, not quiet piece p line n turn t and why. Do this: see --explain quiet and --piece p.
18, an exit code: of drive: the wire could not be opened, a send failed, its answers ended, or one is neither 0 nor 1; what came before may be cut. Do this: look at what answers, and at the order in which both ends open.
125, an exit code: the program could not be built; nothing is written. Do this: read standard error; it says what is missing.
TooLarge, of another program: R print TooLarge: the new text would have more than 4,194,304 bytes, or of rewrite more than 100,000 pieces. Do this: divide the program.
TooLong, of another program: R trace TooLong: the trace has more than 67,108,864 bytes. Do this: play fewer turns with pins=yes.
padding, of another program: R padding n: piece n sets a padding, so the program is not one for a part alone. Do this: leave its paddings out, or play it with place.
differs, of another program: trace differs clock i: at clock i, from 1, TDO is not that of the board. Do this: look for another board, another part, or a digit that was changed.
BadLine, of another program: R trace n BadLine: line n begins with C and a blank, and is not 1 to 64 digits from 0 to 7. Do this: look for a blank at its end, a carriage return, or a line that was cut.
quiet, of another program: not quiet ..: a scan has not the length of the registers, or leads through a state of scans; so the play is not the same at each place of a chain. Do this: correct what the line names; section 4 of the guide.
S, of another program: S p line l DRSCAN n in h out h: in piece p, of line l, n bits went in at TDI, and as many came out at TDO, in hexadecimal, the first bit lowest; WALK is a way through a shift state, and S turns .. says the sums. Do this: look for the first line whose out is not what the part should give, and see --piece p.
NOTE, a statement: gives a note, which list shows; it does nothing in a play. As in: NOTE \"KEY\" \"TEXT\";
ACTION, a statement: names what one can play, and its procedures in their order. As in: ACTION A \"TEXT\" = P, Q OPTIONAL;
PROCEDURE, a statement: begins a procedure, which sees the variables of the blocks after USES. As in: PROCEDURE P USES D;
ENDPROC, a statement: ends a procedure. As in: ENDPROC;
DATA, a statement: begins a block of variables, which are set before the first procedure. As in: DATA D;
ENDDATA, a statement: ends a block of variables. As in: ENDDATA;
CRC, a statement: gives the check word of the text before it; check compares it, and a play does not. As in: CRC 1A2B;
BOOLEAN, a statement: declares a bit, or an array of bits; the rightmost digit is index 0. As in: BOOLEAN A[8] = $3C;
INTEGER, a statement: declares an integer of 32 bits, or an array of them. As in: INTEGER T[3] = 7, 8;
IF, a statement: does the statement after THEN if the bit is 1. As in: IF N > 3 THEN N = 3;
GOTO, a statement: goes on at a label of the same procedure. As in: GOTO L;
CALL, a statement: plays a procedure, and goes on after the CALL. As in: CALL P;
FOR, a statement: begins a loop, which the NEXT of its variable ends. As in: FOR I = 0 TO 6 STEP 2;
NEXT, a statement: goes back to the statement after the FOR, or on if the loop is over. As in: NEXT I;
PUSH, a statement: puts a value on the record stack. As in: PUSH N;
POP, a statement: takes a value off the record stack. As in: POP N;
PRINT, a statement: writes a line that begins with P. As in: PRINT \"N IS \", N;
EXPORT, a statement: writes a line that begins with X, the key and the value. As in: EXPORT \"KEY\", A[];
EXIT, a statement: ends the play with this code. As in: EXIT 11;
IRSCAN, a statement: shifts bits through the instruction registers, the lowest index first. As in: IRSCAN 4, $2;
DRSCAN, a statement: shifts bits through the data registers, and may capture and compare what comes out. As in: DRSCAN 8, $3C, CAPTURE A[];
PREIR, a statement: gives the bits that go before those of each later IRSCAN, ones if it names none. As in: PREIR 4;
POSTIR, a statement: gives the bits that go after those of each later IRSCAN. As in: POSTIR 4;
PREDR, a statement: gives the bits that go before those of each later DRSCAN. As in: PREDR 1;
POSTDR, a statement: gives the bits that go after those of each later DRSCAN. As in: POSTDR 2, #01;
IRSTOP, a statement: gives the state in which each later IRSCAN ends. As in: IRSTOP IRPAUSE;
DRSTOP, a statement: gives the state in which each later DRSCAN ends. As in: DRSTOP DRPAUSE;
STATE, a statement: moves the devices from state to state. As in: STATE IRPAUSE, IDLE;
WAIT, a statement: makes clocks in a state, and writes the microseconds, which it does not wait for. As in: WAIT IDLE, 5 CYCLES, 100 USEC;
FREQUENCY, a statement: writes the frequency of the clocks that follow. As in: FREQUENCY 1E6 HZ;
TRST, a statement: is not supported: write STATE RESET, if the part can be reset without its TRST* pin. As in: TRST 0 CYCLES;
VECTOR, a statement: is not supported: a device has no pins here but those of its TAP. As in: VECTOR 3, #101;
VMAP, a statement: is not supported: a device has no pins here but those of its TAP. As in: VMAP \"A\", \"B\";
USES, in a statement: names the blocks whose variables the procedure sees. As in: PROCEDURE P USES D, Q;
OPTIONAL, in a statement: marks a procedure that is played only if do names it. As in: ACTION A = P, Q OPTIONAL;
RECOMMENDED, in a statement: marks a procedure that is played unless skip names it. As in: ACTION A = P, Q RECOMMENDED;
THEN, in a statement: comes before the statement that is played if the bit is 1. As in: IF B THEN EXIT 1;
TO, in a statement: comes before the limit of a loop. As in: FOR I = 0 TO 7;
STEP, in a statement: comes before the step of a loop, which is 1 without it. As in: FOR I = 7 TO 0 STEP -1;
CAPTURE, in a statement: stores what comes out at the clocks of the data; the array is at least as long. As in: DRSCAN 8, $3C, CAPTURE A[];
COMPARE, in a statement: sets a bit to 1 if what comes out is the first array in each bit for which the second, the mask, has a 1. As in: DRSCAN 8, $3C, COMPARE $A5, $FF, B;
CYCLES, in a statement: comes after a count of clocks. As in: WAIT IDLE, 5 CYCLES;
USEC, in a statement: comes after a count of microseconds. As in: WAIT IDLE, 100 USEC;
HZ, in a statement: comes after a frequency. As in: FREQUENCY 1E6 HZ;
ABS, in a statement: gives an integer without its sign. As in: N = ABS(N);
INT, in a statement: gives the integer whose 32 bits are the first bits of an array. As in: N = INT(A[]);
BOOL, in a statement: gives the 32 bits of an integer as an array. As in: A[] = BOOL(N);
CHR$, in a statement: writes the byte of this number, 0 to 255. As in: PRINT CHR$(65);
MAX, in a statement: is not supported: leave it out with what belongs to it; there is no time that could run out. As in: WAIT 5 CYCLES, MAX 9 CYCLES;
CEIL, in a statement: is not supported: integers have no fraction. As in: N = CEIL(M);
FLOOR, in a statement: is not supported: integers have no fraction. As in: N = FLOOR(M);
LOG2, in a statement: is not supported: write the number, or shift in a loop. As in: N = LOG2(M);
SQRT, in a statement: is not supported: write the number. As in: N = SQRT(M);
RESET, a state: is stable; the instruction is that of the identity, or BYPASS if the part has none. In IEEE 1149.1: Test-Logic-Reset.
IDLE, a state: is stable; here a part works, as while it erases or programs. In IEEE 1149.1: Run-Test/Idle.
DRSELECT, a state: is on the way to a scan of the data registers. In IEEE 1149.1: Select-DR-Scan.
DRCAPTURE, a state: loads the data register that the instruction selects. In IEEE 1149.1: Capture-DR.
DRSHIFT, a state: moves the data register by a bit at each clock. In IEEE 1149.1: Shift-DR.
DREXIT1, a state: is on the way out of DRSHIFT. In IEEE 1149.1: Exit1-DR.
DRPAUSE, a state: is stable; a scan of the data registers may end here before its update. In IEEE 1149.1: Pause-DR.
DREXIT2, a state: is on the way out of DRPAUSE. In IEEE 1149.1: Exit2-DR.
DRUPDATE, a state: lets what was shifted into the data register take effect. In IEEE 1149.1: Update-DR.
IRSELECT, a state: is on the way to a scan of the instruction registers. In IEEE 1149.1: Select-IR-Scan.
IRCAPTURE, a state: loads the instruction register. In IEEE 1149.1: Capture-IR.
IRSHIFT, a state: moves the instruction register by a bit at each clock. In IEEE 1149.1: Shift-IR.
IREXIT1, a state: is on the way out of IRSHIFT. In IEEE 1149.1: Exit1-IR.
IRPAUSE, a state: is stable; a scan of the instruction registers may end here before its update. In IEEE 1149.1: Pause-IR.
IREXIT2, a state: is on the way out of IRPAUSE. In IEEE 1149.1: Exit2-IR.
IRUPDATE, a state: lets the instruction that was shifted in take effect. In IEEE 1149.1: Update-IR.
";
