//! Faults of programs for other controls.

ghost use Rattle.std.specs.Prelude.{◌≡◌, map};
ghost use Rattle.ngc_fault_texts.specs.Numbers.{dialect_numbers};

use crate::parts::Row;

// Returns the rows of "Programs for other controls".
pub(crate) fn dialects() -> &'static [Row]
    ensures { map (λ row. row.number) result.now ≡ dialect_numbers }
{
    const ROWS: &[Row] = &[
        Row {
            number: 123,
            rule: "The control's language doesn't have this: correct the line from this column on, or name another\n\
             control. The column is that of the first byte that can't be read (our own).",
            example: "command with `--dialect linuxcnc`: `G0 X1 (a`",
            answer: "`ngc: fault 123 line 1 column 7: comment not closed`",
            place: None,
            mend: "LinuxCNC and Mach3 have expressions, Fanuc has macros, GRBL has numbers alone. Names such as\n\
             `#<depth>` are LinuxCNC's.",
        },
        Row {
            number: 134,
            rule: "This parameter has no value here: set it before, or write the number in its place.\n\
             It isn't set, or only the control sets it or knows it (our own).",
            example: "command with `--dialect linuxcnc`: `G0 X#<depth>`",
            answer: "`ngc: fault 134 line 1: parameter is not set, or only the control knows it`",
            place: None,
            mend: "Names belong to one call unless they begin with `_`. Positions such as `#5420` are known to the\n\
             control alone.",
        },
        Row {
            number: 135,
            rule: "This expression has no value: correct it.\n\
             It divides by zero, takes the root of a number below zero, or is over 1,000,000,000 in size (our\n\
             own).",
            example: "command with `--dialect linuxcnc`: `G0 X[1/0]`",
            answer: "`ngc: fault 135 line 1: division by zero`",
            place: None,
            mend: "Angles are in degrees.",
        },
        Row {
            number: 136,
            rule: "A subprogram, a line or the end of a block isn't there, or is there twice: correct the label or\n\
             the number. The message says which (our own).",
            example: "command with `--dialect linuxcnc`: `o1 call`",
            answer: "`ngc: fault 136 line 1: no subprogram or line has this label`",
            place: None,
            mend: "A label is a number or a name, as `o100` or `o<hole>`. A subprogram is in the same file.",
        },
        Row {
            number: 137,
            rule: "Calls are nested over 10 deep, or over 32 loops are open: use fewer (our own).",
            example: "command with `--dialect linuxcnc`: `o1 sub`, `o1 call`, `o1 endsub`, `o1 call`",
            answer: "`ngc: fault 137 line 2: subprograms nested over 10 deep`",
            place: None,
            mend: "A subprogram that calls itself needs a condition that ends it.",
        },
        Row {
            number: 138,
            rule: "Over 2,000,000 lines are executed: correct the condition of the loop (our own).",
            example: "command with `--dialect linuxcnc`: `o1 while [1]`, `o1 endwhile`",
            answer: "`ngc: fault 138 line 1: over 2,000,000 lines were executed`",
            place: None,
            mend: "Lines count from the first label, jump or call of the program on.",
        },
        Row {
            number: 139,
            rule: "The program sets over 10,000 names: use fewer (our own).",
            example: "command with `--dialect linuxcnc`: 10,001 lines `#<_a1>=1`, `#<_a2>=1`, ..",
            answer: "`ngc: fault 139 line 10001: over 10,000 names`",
            place: None,
            mend: "Numbered parameters aren't counted.",
        },
        Row {
            number: 205,
            rule: "`ngc` doesn't execute this code, word or statement of the control: post without it (our own).",
            example: "command with `--dialect linuxcnc`: `G0 A5`",
            answer: "`ngc: fault 205 line 1: rotary and secondary axes, except at 0: not supported, at A`",
            place: None,
            mend: "Most CAM systems have settings for subprograms, compensation and the number of axes. Tap and\n\
             probe by hand.",
        },
        Row {
            number: 211,
            rule: "The control doesn't allow these words together, or a word is missing: correct the line.\n\
             The message names the word (our own).",
            example: "command with `--dialect linuxcnc`: `G0 X1 P1`",
            answer: "`ngc: fault 211 line 1: nothing uses the word, at P`",
            place: None,
            mend: "Mach3 and Fanuc leave out words that nothing uses.",
        },
        Row {
            number: 223,
            rule: "Cutter compensation doesn't allow this word: end it first, with `G40` and a straight move.\n\
             While it is on, moves home or in machine coordinates, cycles, and changes of plane, unit,\n\
             origin, length, feed mode, path control or tool aren't allowed, nor compensation again\n\
             (our own).",
            example: "command with `--dialect linuxcnc`: `F60`, `G41.1 D2 G1 X9`, `G53 G0 Z0`",
            answer: "`ngc: fault 223 line 3: not while cutter compensation is on, at G53`",
            place: None,
            mend: "The move after `G40` leads the tool back to the programmed path, on all axes: leave the part\n\
             with it.",
        },
        Row {
            number: 247,
            rule: "The tool doesn't fit beside this path: use a smaller one, or another entry.\n\
             The entry move is longer than the tool's radius, arcs that the tool follows on the inside are\n\
             larger than it, and its path has room in each corner (our own, as LinuxCNC).",
            example: "command with `--dialect linuxcnc`: `F60`, `G41.1 D4 G1 X1`",
            answer: "`ngc: fault 247 line 2: the entry move is not longer than the tool's radius, at G1`",
            place: None,
            mend: "The radius is that of the lowest part of the tool in the tool table, or half of D with `G41.1`\n\
             and `G42.1`.",
        },
        Row {
            number: 248,
            rule: "The start and the end of this arc aren't equally far from its centre: correct its end or its\n\
             centre. The radii may differ as the control allows, and by what a centre within 0.025 mm evens\n\
             out (our own).",
            example: "command with `--dialect linuxcnc`: `G91 G2 X10 I4 F100`",
            answer: "`ngc: fault 248 line 1: the radii differ by more than can be evened out, at G2`",
            place: None,
            mend: "If the program is right, its centres may be points: look for `G90.1` in the manual of the\n\
             CAM system.",
        },
    ];
    ROWS
}
