ghost use Rattle.std.specs.Prelude.{◌≡◌, length};
ghost use Rattle.lines.specs.Columns.{field_of, Inside};

// A field of a line: its first and its last column, counted from 1 as on paper.
#[derive(Clone, Copy)]
pub struct Columns {
    pub from: usize,
    pub to: usize,
}

// The part of the line that is the field.
pub fn field(line: &[u8], c: Columns) -> &[u8]
    requires { Inside c (length line.now) }
    ensures { result.now ≡ field_of c line.now }
{
    &line[c.from - 1..c.to]
}
