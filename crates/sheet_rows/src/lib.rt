// Row forms, as they are printed.
#![tactic(auto)]

ghost use Rattle.text_write.specs.Appending.{Appended};
ghost use Rattle.sheet_rows.specs.Rows.{row_line};

use text_write::Text;

// What is live at an instant, and the bits of the budget size.
#[derive(Clone, Copy)]
pub struct Row {
    pub at: i64,
    pub long: u64,
    pub short: u64,
    pub size: u64,
}

// Puts a row with its newline, as Text::put does. It is made beside the text, so that it goes in
// only where all of it has room.
pub fn put_row(text: &mut Text, row: Row)
    ensures { Appended text.old text.new (row_line row) }
{
    let mut room = [0u8; 128]; // more than a row has; a Vec may run out of memory
    let mut line = Text::new(&mut room);
    line.put(b"(row (at ");
    line.put_instant(row.at);
    line.put(b") (long ");
    line.put_decimal(row.long);
    line.put(b") (short ");
    line.put_decimal(row.short);
    line.put(b") (size ");
    line.put_hex(row.size);
    line.put(b"))\n");
    text.put(line.as_bytes());
}
