//! What `check` says of a program.
ghost use Rattle.std.specs.Prelude.{◌≡◌, ◌≤◌, length, map, IfOk};
ghost use Rattle.tool_io.specs.Lines.{IsWhole, HasPut};
ghost use Rattle.stapl_lexer.specs.declared.token.Token.{Token};
ghost use Rattle.stapl_lexer.specs.Pieces.{text_limit};
ghost use Rattle.stapl_syntax.specs.Programs.{IsProgram};
ghost use Rattle.stapl_syntax.specs.Trees.{body_tree, stmt_tree};
ghost use Rattle.program_reports.specs.Checks.{has_kind, count_of, labelled_count, block_counts, counts_line, word_of, stored_word, BeginsLastPiece, HasCheckWords, labelled_word, good_line, differing_line, compared_line, crc_line, check_text};

use stapl_lexer::{LexRefused, Token, crc_of, cut, tokens};
use stapl_syntax::{Body, Stmt};
use std::alloc::{AllocError, Global};
use tool_io::{Failed, Lines, Sink, put_hex, put_size};

/// The check word that a program holds, and that of its text before the word CRC (JESD71, CRC statement).
#[derive(Clone, Copy)]
pub struct CheckWords {
    stored: u16,
    computed: u16,
}

// The kinds of statements that are counted.
#[derive(Clone, Copy)]
enum StatementKind {
    Action,
    Procedure,
    Data,
}

// The check word that a statement holds.
fn word_of(body: &Body) -> Option<u16>
    ensures { result ≡ word_of (body_tree body.now) }
{
    match body {
        Body::Crc(word) => Some(*word),
        _ => None,
    }
}

// The check word that a program holds.
fn stored_word(program: &[Stmt]) -> Option<u16>
    ensures { result ≡ stored_word (map stmt_tree program.now) }
{
    match program.last() {
        Some(statement) => word_of(&statement.body),
        None => None,
    }
}

// The first token of the last piece of a text.
fn last_word(alloc: Global, text: &[u8]) -> Result<Token, AllocError>
    requires small { length text.now ≤ text_limit }
    requires some { (word : Token) × BeginsLastPiece text.now word }
    ensures within { IfOk result (λ word. word.start ≤ length text.now) }
    ensures word { IfOk result (BeginsLastPiece text.now) }
{
    let pieces = cut(alloc, text)?;
    let Some(piece) = pieces.last() else {
        unreachable!()
    };
    match tokens(alloc, text, piece) {
        Ok(tokens) => match tokens.first() {
            Some(word) => Ok(*word),
            None => unreachable!(),
        },
        Err(LexRefused::Because(_)) => unreachable!(),
        Err(LexRefused::Memory) => Err(AllocError),
    }
}

/// The check word that a program holds, and that of its text; `None` if the program holds none.
///
/// It takes all memory that the report needs: `put_check` takes none. The only error is want of memory.
pub fn check_words(
    alloc: Global,
    text: &[u8],
    program: &[Stmt],
) -> Result<Option<CheckWords>, AllocError>
    requires { IsProgram text.now (map stmt_tree program.now) }
    ensures { IfOk result (HasCheckWords text.now (map stmt_tree program.now)) }
{
    let Some(stored) = stored_word(program) else {
        return Ok(None);
    };
    let word = last_word(alloc, text)?;
    Ok(Some(CheckWords {
        stored,
        computed: crc_of(&text[..word.start as usize]),
    }))
}

// Whether a statement is of a kind.
#[tactic(auto, unfolding(crate::specs::Checks::has_kind))]
fn has_kind(statement: &Stmt, kind: StatementKind) -> bool
    ensures { result ≡ has_kind kind statement.now }
{
    match kind {
        StatementKind::Action => matches!(statement.body, Body::Action(_, _, _)),
        StatementKind::Procedure => matches!(statement.body, Body::Procedure(_, _)),
        StatementKind::Data => matches!(statement.body, Body::Data(_)),
    }
}

// How many statements of a program are of a kind.
fn count_of(program: &[Stmt], kind: StatementKind) -> usize
    ensures count { result ≡ count_of kind (map stmt_tree program.now) }
    ensures few { result ≤ length program.now }
{
    let mut count = 0;
    for statement in program {
        if has_kind(statement, kind) {
            count += 1;
        }
    }
    count
}

// Puts a label and how many statements of a program are of a kind.
fn put_count_of<K: Sink>(
    lines: &mut Lines<K>,
    label: &[u8],
    program: &[Stmt],
    kind: StatementKind,
) -> Result<(), Failed>
    requires { IsWhole lines.old }
    ensures { HasPut K.Sink lines.old (labelled_count label.now kind (map stmt_tree program.now))
        lines.new result }
{
    put_size(lines, label, count_of(program, kind))
}

// Puts the counts of the blocks, and the end of the line.
fn put_block_counts<K: Sink>(lines: &mut Lines<K>, program: &[Stmt]) -> Result<(), Failed>
    requires { IsWhole lines.old }
    ensures { HasPut K.Sink lines.old (block_counts (map stmt_tree program.now)) lines.new result }
{
    put_count_of(lines, b" procedures ", program, StatementKind::Procedure)?;
    put_count_of(lines, b" data ", program, StatementKind::Data)?;
    lines.put(b"\n")
}

// Puts the line of the counts.
fn put_counts<K: Sink>(lines: &mut Lines<K>, program: &[Stmt]) -> Result<(), Failed>
    requires { IsWhole lines.old }
    ensures { HasPut K.Sink lines.old (counts_line (map stmt_tree program.now)) lines.new result }
{
    put_size(lines, b"ok pieces ", program.len())?;
    put_count_of(lines, b" actions ", program, StatementKind::Action)?;
    put_block_counts(lines, program)
}

// Puts a label and a check word.
fn put_labelled_word<K: Sink>(lines: &mut Lines<K>, label: &[u8], word: u16) -> Result<(), Failed>
    requires { IsWhole lines.old }
    ensures { HasPut K.Sink lines.old (labelled_word label.now word) lines.new result }
{
    lines.put(label)?;
    put_hex(lines, u64::from(word), 16)
}

// Puts the line of a good check word.
fn put_good<K: Sink>(lines: &mut Lines<K>, word: u16) -> Result<(), Failed>
    requires { IsWhole lines.old }
    ensures { HasPut K.Sink lines.old (good_line word) lines.new result }
{
    put_labelled_word(lines, b"crc good ", word)?;
    lines.put(b"\n")
}

// Puts the line of a check word that differs from that of the text.
fn put_differing<K: Sink>(lines: &mut Lines<K>, stored: u16, computed: u16) -> Result<(), Failed>
    requires { IsWhole lines.old }
    ensures { HasPut K.Sink lines.old (differing_line stored computed) lines.new result }
{
    put_labelled_word(lines, b"crc differs stored ", stored)?;
    put_labelled_word(lines, b" computed ", computed)?;
    lines.put(b"\n")
}

// Puts the line of a check word, by that of the text.
fn put_compared<K: Sink>(lines: &mut Lines<K>, words: CheckWords) -> Result<(), Failed>
    requires { IsWhole lines.old }
    ensures { HasPut K.Sink lines.old (compared_line words) lines.new result }
{
    if words.stored == words.computed {
        put_good(lines, words.stored)
    } else {
        put_differing(lines, words.stored, words.computed)
    }
}

// Puts the line of the check word.
fn put_crc<K: Sink>(lines: &mut Lines<K>, words: Option<CheckWords>) -> Result<(), Failed>
    requires { IsWhole lines.old }
    ensures { HasPut K.Sink lines.old (crc_line words) lines.new result }
{
    match words {
        None => lines.put(b"crc none\n"),
        Some(words) => put_compared(lines, words),
    }
}

/// Puts how many statements a program has, and whether the check word that it holds is that of its text.
///
/// `Failed` as of the sink.
pub fn put_check<K: Sink>(
    lines: &mut Lines<K>,
    program: &[Stmt],
    words: Option<CheckWords>,
) -> Result<(), Failed>
    requires { IsWhole lines.old }
    ensures { HasPut K.Sink lines.old (check_text (map stmt_tree program.now) words) lines.new result }
{
    put_counts(lines, program)?;
    put_crc(lines, words)
}
