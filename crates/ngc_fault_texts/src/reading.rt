//! Faults of reading a program.

ghost use Rattle.std.specs.Prelude.{◌≡◌, map};
ghost use Rattle.ngc_fault_texts.specs.Numbers.{line_numbers, file_numbers};

use crate::parts::Row;

// Returns the rows of "Reading a line".
pub(crate) fn lines() -> &'static [Row]
    ensures { map (λ row. row.number) result.now ≡ line_numbers }
{
    const ROWS: &[Row] = &[
        Row {
            number: 101,
            rule: "This number is too large: write a smaller one.\n\
             The limit is 1,000,000,000 either way (our own).",
            example: "`G0 X1000000001`",
            answer: "`ngc: fault 101 line 1 column 4`",
            place: Some("the word's letter or the setting's `#`"),
            mend: "Look for a missing decimal point, and for two numbers that run together: a space doesn't end a\n\
             number.",
        },
        Row {
            number: 111,
            rule: "This line has more than 256 characters: break it, or shorten its comment.\n\
             The line feed isn't counted. This fault takes precedence over any other fault of its line (our\n\
             own).",
            example: "a line of 257 characters",
            answer: "`ngc: fault 111 line 1 column 257`",
            place: Some("always 257"),
            mend: "A letter such as `é` counts as two in most files. A file with carriage returns and no line feeds\n\
             is one long line: save it with line feeds.",
        },
        Row {
            number: 112,
            rule: "This character doesn't belong here: take it out.\n\
             A carriage return may only be the last character of a line (our own).",
            example: "`G0 X1 @`",
            answer: "`ngc: fault 112 line 1 column 7`",
            place: Some("the character"),
            mend: "Write `.` for a decimal comma, `#1` for a named parameter, `/` first on its line, `%` on a line\n\
             of its own. At line 1 column 1 look for a byte order mark. For LinuxCNC's `@` and `^` write X\n\
             and Y.",
        },
        Row {
            number: 113,
            rule: "This word or setting is written wrong: correct its number or its value.\n\
             A number has digits, at most one decimal point, and a sign only before digits. A value directly\n\
             follows its letter.",
            example: "`G0 X1.2.3`",
            answer: "`ngc: fault 113 line 1 column 4`",
            place: Some(
                "the item's first byte: the letter of a word, the `#` of a setting, or a number without a\n\
             letter",
            ),
            mend: "A setting has its `=`. A sign before `#` or `[` is refused (our own): write `X[0-#1]` for\n\
             `X-#1`. Put comments after the number. There are no functions such as `SIN` and no `IF`.",
        },
        Row {
            number: 114,
            rule: "No word begins with this letter, or the line number isn't first: take the word out, or move the\n\
             `N` to the front.\n\
             The letters are A B C D F G H I J K L M P Q R S T X Y Z.",
            example: "`G0 E1`",
            answer: "`ngc: fault 114 line 1 column 4`",
            place: Some("the letter"),
            mend: "There are no subprograms (`O`), no axes `U`, `V` and `W`, and no exponents: write 1000 for\n\
             `1e3`.",
        },
        Row {
            number: 115,
            rule: "This line number isn't one to five digits: shorten it, or take it out.\n\
             It has no sign and no decimal point.",
            example: "`N100000 G0`",
            answer: "`ngc: fault 115 line 1 column 1`",
            place: Some("the `N`"),
            mend: "The greatest is `N99999`. Line numbers do nothing, so you can leave them all out.",
        },
        Row {
            number: 116,
            rule: "This comment has no end: write `)` on the same line.\n\
             A comment is closed on the line on which it begins.",
            example: "`G0 X12(b`",
            answer: "`ngc: fault 116 line 1 column 7`",
            place: Some("the open parenthesis"),
            mend: "A comment after `;` goes to the end of its line and needs no `)`: `G0 X12 ; b`.",
        },
        Row {
            number: 117,
            rule: "This comment has another `(` inside it: take the inner parentheses out.\n\
             A comment in parentheses can't hold another one.",
            example: "`G0 (a(b)c) X1`",
            answer: "`ngc: fault 117 line 1 column 4`",
            place: Some("the outer parenthesis"),
            mend: "A comment after `;` may hold parentheses: `G0 X1 ; a (b) c`.",
        },
        Row {
            number: 118,
            rule: "A bracket is missing or left over, or has another operator than `+`, `-`, `*` and `/` in it:\n\
             correct it.\n\
             The manual has more operators (our own).",
            example: "`G0 X[1+2`",
            answer: "`ngc: fault 118 line 1 column 4`",
            place: Some("the item with the bracket, or the bracket where an item should begin"),
            mend: "Write `G0 X[1+2]`: each `[` needs its `]`. There is no `MOD`: write its result as a number.",
        },
        Row {
            number: 119,
            rule: "This line has more than 64 words: write two lines (our own).",
            example: "a line with 65 words",
            answer: "`ngc: fault 119 line 2 column 129`",
            place: Some("the 65th word"),
            mend: "Settings and comments don't count as words.",
        },
    ];
    ROWS
}

// Returns the rows of "Reading a file".
pub(crate) fn files() -> &'static [Row]
    ensures { map (λ row. row.number) result.now ≡ file_numbers }
{
    const ROWS: &[Row] = &[
        Row {
            number: 120,
            rule: "The program has no end: write `M2` or `M30` as its last line.\n\
             Unless a file begins with a `%` line, it must execute one of them.",
            example: "whole file `G0 X1`",
            answer: "`ngc: fault 120 line 1`",
            place: Some("the number of lines of the text; 0 for an empty file"),
            mend: "If `M2` is there, look for a `%` line before it, which ends the text, and for a `/` in front of\n\
             it, with which block delete takes it out.",
        },
        Row {
            number: 121,
            rule: "The second `%` is missing: write `%` as the last line.\n\
             A file that begins with a `%` line must have another one.",
            example: "whole file `%`, `G0 X1`",
            answer: "`ngc: fault 121`",
            place: Some("none"),
            mend: "Or take the first `%` out, and end the program with `M2`.",
        },
        Row {
            number: 122,
            rule: "The program has more than 100,000 lines: split it, or take blank lines out.\n\
             Blank lines and lines after `M2` count; `%` lines and what follows the end of the text don't\n\
             (our own).",
            example: "whole file of 100,001 lines",
            answer: "`ngc: fault 122`",
            place: Some("none"),
            mend: "Each part is a program of its own: give it its modes, its tool, its feed and its `M2`.",
        },
    ];
    ROWS
}
