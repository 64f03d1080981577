//! What `list` says of a program.
ghost use Rattle.std.specs.Prelude.{map};
ghost use Rattle.std.specs.List.{flat_map};
ghost use Rattle.tool_io.specs.Lines.{IsWhole, HasPut};
ghost use Rattle.stapl_syntax.specs.Trees.{item_tree, body_tree, stmt_tree};
ghost use Rattle.program_reports.specs.Listings.{note_line, quoted, labelled_name, action_text, action_line, choice_word, item_line, action_lines, lines_of, list_text};

use base::ItemList;
use stapl_lexer::Name;
use stapl_syntax::{Body, Item, ItemChoice, Stmt};
use tool_io::{Failed, Lines, Sink, put_labelled_text};

// Puts the line of a note.
fn put_note<K: Sink>(lines: &mut Lines<K>, key: &[u8], text: &[u8]) -> Result<(), Failed>
    requires { IsWhole lines.old }
    ensures { HasPut K.Sink lines.old (note_line key.now text.now) lines.new result }
{
    put_labelled_text(lines, b"N ", key)?;
    put_labelled_text(lines, b" = ", text)?;
    lines.put(b"\n")
}

// Puts a text between quotes.
fn put_quoted<K: Sink>(lines: &mut Lines<K>, text: &[u8]) -> Result<(), Failed>
    requires { IsWhole lines.old }
    ensures { HasPut K.Sink lines.old (quoted text.now) lines.new result }
{
    put_labelled_text(lines, b" \"", text)?;
    lines.put(b"\"")
}

// Puts a label and a name.
fn put_name<K: Sink>(lines: &mut Lines<K>, label: &[u8], name: &Name) -> Result<(), Failed>
    requires { IsWhole lines.old }
    ensures { HasPut K.Sink lines.old (labelled_name label.now name.now) lines.new result }
{
    lines.put(label)?;
    lines.put(name.bytes())
}

// Puts the text of an action, if it has one.
fn put_action_text<K: Sink>(lines: &mut Lines<K>, text: &Option<ItemList<u8>>) -> Result<(), Failed>
    requires { IsWhole lines.old }
    ensures { HasPut K.Sink lines.old (action_text text.now) lines.new result }
{
    match text {
        Some(text) => put_quoted(lines, text.as_slice()),
        None => lines.put(b""),
    }
}

// Puts the line of an action.
fn put_action_line<K: Sink>(
    lines: &mut Lines<K>,
    name: &Name,
    text: &Option<ItemList<u8>>,
) -> Result<(), Failed>
    requires { IsWhole lines.old }
    ensures { HasPut K.Sink lines.old (action_line name.now text.now) lines.new result }
{
    put_name(lines, b"A ", name)?;
    put_action_text(lines, text)?;
    lines.put(b"\n")
}

// Puts whether the procedure of an item is run, and the end of the line.
fn put_choice<K: Sink>(lines: &mut Lines<K>, choice: Option<ItemChoice>) -> Result<(), Failed>
    requires { IsWhole lines.old }
    ensures { HasPut K.Sink lines.old (choice_word choice) lines.new result }
{
    match choice {
        None => lines.put(b" required\n"),
        Some(ItemChoice::Optional) => lines.put(b" optional\n"),
        Some(ItemChoice::Recommended) => lines.put(b" recommended\n"),
    }
}

// Puts the line of an item.
fn put_item<K: Sink>(lines: &mut Lines<K>, item: &Item) -> Result<(), Failed>
    requires { IsWhole lines.old }
    ensures { HasPut K.Sink lines.old (item_line (item_tree item.now)) lines.new result }
{
    put_name(lines, b"I ", &item.procedure)?;
    put_choice(lines, item.choice)
}

// Puts the lines of the items of an action.
fn put_items<K: Sink>(lines: &mut Lines<K>, items: &[Item]) -> Result<(), Failed>
    requires { IsWhole lines.old }
    ensures { HasPut K.Sink lines.old (flat_map item_line (map item_tree items.now)) lines.new result }
{
    for item in items {
        put_item(lines, item)?;
    }
    Ok(())
}

// Puts the line of an action, and those of its items.
fn put_action<K: Sink>(
    lines: &mut Lines<K>,
    name: &Name,
    text: &Option<ItemList<u8>>,
    items: &[Item],
) -> Result<(), Failed>
    requires { IsWhole lines.old }
    ensures { HasPut K.Sink lines.old (action_lines name.now text.now (map item_tree items.now))
        lines.new result }
{
    put_action_line(lines, name, text)?;
    put_items(lines, items)
}

// Puts the lines of a statement.
fn put_statement<K: Sink>(lines: &mut Lines<K>, body: &Body) -> Result<(), Failed>
    requires { IsWhole lines.old }
    ensures { HasPut K.Sink lines.old (lines_of (body_tree body.now)) lines.new result }
{
    match body {
        Body::Note(key, text) => put_note(lines, key.as_slice(), text.as_slice()),
        Body::Action(name, text, items) => put_action(lines, name, text, items.as_slice()),
        _ => lines.put(b""),
    }
}

/// Puts the notes of a program, and its actions with their procedures, in the order of the text. It takes no memory.
///
/// `Failed` as of the sink.
pub fn put_list<K: Sink>(lines: &mut Lines<K>, program: &[Stmt]) -> Result<(), Failed>
    requires { IsWhole lines.old }
    ensures { HasPut K.Sink lines.old (list_text (map stmt_tree program.now)) lines.new result }
{
    for statement in program {
        put_statement(lines, &statement.body)?;
    }
    Ok(())
}
