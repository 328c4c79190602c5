// The names that a table gives its inputs, in comment lines before the first cube line: `# x0 tank high`.
#![tactic(auto)]

ghost use Rattle.std.specs.Prelude.{◌≡◌, ◌<◌};
ghost use Rattle.table_names.specs.Names.{after, after_number, name_after, named, begins_cube, name_of};

// What follows the byte b, where the text begins with it; else nothing.
#[tactic(auto, unfolding(crate::specs::Names::after))]
fn after(text: &[u8], b: u8) -> &[u8]
    ensures { result.now ≡ after b text.now }
{
    match text {
        [x, rest @ ..] if *x == b => rest,
        _ => &[],
    }
}

// The same for a number of one digit or two.
#[tactic(auto, unfolding(crate::specs::Names::after_number))]
fn after_number(text: &[u8], i: usize) -> &[u8]
    requires { i < 100 }
    ensures { result.now ≡ after_number i text.now }
{
    if i < 10 {
        return after(text, (48 + i) as u8);
    }
    after(after(text, (48 + i / 10) as u8), (48 + i % 10) as u8)
}

// A name after one or more blanks.
#[tactic(auto, unfolding(crate::specs::Names::name_after))]
fn name_after(text: &[u8]) -> &[u8]
    ensures { result.now ≡ name_after text.now }
{
    let name = table_lines::trim_front(text);
    if name.len() < text.len() {
        return table_lines::trim_end(name);
    }
    &[]
}

// The name of input i in a line; nothing where it gives none.
#[tactic(auto, unfolding(crate::specs::Names::named))]
fn named(line: &[u8], i: usize) -> &[u8]
    requires { i < 100 }
    ensures { result.now ≡ named i line.now }
{
    let comment = after(table_lines::trim_front(line), b'#');
    let letter = after(table_lines::trim_front(comment), b'x');
    name_after(after_number(letter, i))
}

// Whether a line begins as a cube line does.
#[tactic(auto, unfolding(crate::specs::Names::begins_cube))]
fn begins_cube(line: &[u8]) -> bool
    ensures { result ≡ begins_cube line.now }
{
    matches!(table_lines::trim_front(line), [b, ..] if table_rows::is_place(*b))
}

// The first name of input i before any cube line, without the blanks around it; nothing where there is none.
pub fn name_of(table: &[u8], i: usize) -> &[u8]
    ensures { result.now ≡ name_of i table.now }
{
    if i >= 100 {
        return &[];
    }
    for line in table.split(|b| *b == b'\n') {
        let name = named(line, i);
        if !name.is_empty() {
            return name;
        }
        if begins_cube(line) {
            return &[];
        }
    }
    &[]
}
