//! Why a text is no TOML, told by the words of the reader.
ghost use Rattle.std.specs.Prelude.{◌≡◌};
ghost use Rattle.book_scope_texts.specs.TomlFaults.{toml_fault_text};

use book_scope_texts::TomlFault;

/// The reason that these words of the TOML reader give.
pub(crate) fn fault_of(words: &str) -> TomlFault {
    match words {
        "invalid UTF-8" => TomlFault::Utf8,
        "invalid key, expected letters, numbers, `-`, `_` or a quoted key" => TomlFault::Key,
        "key with no value, expected `=`" => TomlFault::MissingEquals,
        "unclosed table, expected `]`" => TomlFault::OpenTable,
        "unclosed array table, expected `]]`" => TomlFault::OpenArrayTable,
        "unexpected key or value, expected newline, `#`" => TomlFault::EndOfLine,
        "unexpected content, expected nothing" => TomlFault::Content,
        "missing comma between array elements, expected `,` or `]`" => TomlFault::Array,
        "missing comma between key-value pairs, expected `,` or `}`" => TomlFault::InlineTable,
        "invalid string" => TomlFault::Text,
        "invalid escape sequence" => TomlFault::Escape,
        "`_` may only go between digits" => TomlFault::Underscore,
        "number out of range" => TomlFault::Overflow,
        "invalid date-time" => TomlFault::Datetime,
        "duplicate key" => TomlFault::Twice,
        "cannot extend a value with a dotted key" => TomlFault::Extend,
        "cannot recurse further; max recursion depth met" => TomlFault::Depth,
        _ => TomlFault::Value,
    }
}

/// What is said of why a text is no TOML.
pub(crate) fn toml_fault_text(fault: TomlFault) -> &'static [u8]
    ensures { result.now ≡ toml_fault_text fault }
{
    match fault {
        TomlFault::Utf8 => b"a byte that is no UTF-8",
        TomlFault::Key => b"a line begins with a key or a header; other signs in a key need quotes",
        TomlFault::MissingEquals => b"an equals sign is missing behind a key",
        TomlFault::OpenTable => b"a header isn't closed by ]",
        TomlFault::OpenArrayTable => b"a header isn't closed by ]]",
        TomlFault::EndOfLine => b"more stands on the line than it may",
        TomlFault::Content => b"more stands there than may",
        TomlFault::Array => b"a comma or ] is missing in an array",
        TomlFault::InlineTable => b"a comma or } is missing in a table",
        TomlFault::Text => b"a text isn't closed by a quote, or has a byte that it can't have",
        TomlFault::Escape => b"no such escape in a text",
        TomlFault::Value => b"no value; a text needs straight quotes, \"...\"",
        TomlFault::Underscore => b"an underscore in a number stands between digits",
        TomlFault::Overflow => b"a number out of its range",
        TomlFault::Datetime => b"no such date or time",
        TomlFault::Twice => b"this key or table stands in the file already",
        TomlFault::Extend => b"a key with a dot goes into a value that is no table",
        TomlFault::Depth => b"values lie in one another too deep",
    }
}
