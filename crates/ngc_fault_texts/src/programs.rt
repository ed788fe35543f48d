//! Faults of values, words and places.

ghost use Rattle.std.specs.Prelude.{◌≡◌, map};
ghost use Rattle.ngc_fault_texts.specs.Numbers.{value_numbers, word_numbers, place_numbers};

use crate::parts::Row;

// Returns the rows of "Values".
pub(crate) fn values() -> &'static [Row]
    ensures { map (λ row. row.number) result.now ≡ value_numbers }
{
    const ROWS: &[Row] = &[
        Row {
            number: 101,
            rule: "A computed value is too large: look for a wrong factor or parameter.\n\
             The limit is 1,000,000,000 either way, also for results in between (our own).",
            example: "`G0 X[1000000000+1]`",
            answer: "`ngc: fault 101 line 1`",
            place: None,
            mend: "Look at the parameters that the line uses: one may be set wrong on a line before.",
        },
        Row {
            number: 102,
            rule: "This line divides by zero: change the divisor.",
            example: "`G0 X[1/0]`",
            answer: "`ngc: fault 102 line 1`",
            place: None,
            mend: "A parameter that was never set is 0: set it on a line before.",
        },
        Row {
            number: 131,
            rule: "The number after `#` isn't whole: write a whole number.\n\
             It must be exactly whole (our own; the manual allows a difference of 0.0001).",
            example: "`G0 X#1.5`",
            answer: "`ngc: fault 131 line 1`",
            place: None,
            mend: "Write `#1` or `#2` for `#1.5`. In a computed number look for a division.",
        },
        Row {
            number: 132,
            rule: "There is no parameter with this number: use `#1` to `#5160`.\n\
             The manual has more parameters (our own).",
            example: "`G0 X#0`",
            answer: "`ngc: fault 132 line 1`",
            place: None,
            mend: "In `##1` the value of `#1` is the number: set it on a line before. Origins aren't parameters:\n\
             set them with `G10` or in the machine file.",
        },
        Row {
            number: 133,
            rule: "Brackets and `#` are nested too deep in this value: compute a part of it on a line before.\n\
             At most 16 can be inside one another (our own).",
            example: "`G0 X[[[[[[[[[[[[[[[[[1]]]]]]]]]]]]]]]]]`",
            answer: "`ngc: fault 133 line 1`",
            place: None,
            mend: "Set a parameter to the inner part, as `#1=[2+3]`, and write `#1` in its place.",
        },
    ];
    ROWS
}

// Returns the rows of "Codes and words".
pub(crate) fn words() -> &'static [Row]
    ensures { map (λ row. row.number) result.now ≡ word_numbers }
{
    const ROWS: &[Row] = &[
        Row {
            number: 201,
            rule: "Two codes of one modal group are on this line: take one out, or write two lines.\n\
             Of one group only `M7` and `M8` can be together (our own).",
            example: "`G0 G80`",
            answer: "`ngc: fault 201 line 1`",
            place: None,
            mend: "`G80` and `G0` are both motion codes: write `G80` on a line of its own. The groups are in\n\
             docs/LANGUAGE.md.",
        },
        Row {
            number: 202,
            rule: "This line has more than four M words: write two lines.",
            example: "`M3 M8 M48 M6 M0`",
            answer: "`ngc: fault 202 line 1`",
            place: None,
            mend: "For the example write `M6 M3 M8 M48`, and `M0` on the next line: that is the order in which they\n\
             take effect.",
        },
        Row {
            number: 203,
            rule: "A letter is on this line twice: take one word out, or write two lines.\n\
             Only `G` and `M` can be there more than once.",
            example: "`G0 X1 X2`",
            answer: "`ngc: fault 203 line 1`",
            place: None,
            mend: "Write `G0 X1` and then `X2` on a line of its own, if both moves are meant.",
        },
        Row {
            number: 204,
            rule: "This G or M code is unknown: take it out, or write one that `ngc` has.\n\
             The value of a code must be exact (our own).",
            example: "`G5 X1`",
            answer: "`ngc: fault 204 line 1`",
            place: None,
            mend: "For a program for another control name it with `--dialect`. docs/CAM.md lists what to write for\n\
             the codes of CAM programs.",
        },
        Row {
            number: 205,
            rule: "This code or axis isn't supported: program three axes and the path of the cutter's centre.\n\
             Left out are `A B C D` and `G38.2 G41 G42 G84 G87 G88` (our own).",
            example: "`G0 A90`",
            answer: "`ngc: fault 205 line 1`",
            place: None,
            mend: "Choose a post-processor for three axes, and compensation in the computer, not in the control.\n\
             There is no probing and no tapping.",
        },
        Row {
            number: 206,
            rule: "A word on this line has two uses: write two lines (our own).\n\
             Axis words can't serve both a motion code and `G10`, `G28`, `G30` or `G92`, nor `P` both `G4`\n\
             and a cycle.",
            example: "`G0 G92 X5`",
            answer: "`ngc: fault 206 line 1`",
            place: None,
            mend: "`G28` and `G92` need no `G0`: write `G92 X5`. An arc can't have both `R` and `I`, `J` or `K`:\n\
             take out `R`, or all of the others.",
        },
        Row {
            number: 207,
            rule: "No code uses this word: write the code that is missing, or take the word out.\n\
             Each word needs a code that uses it, on its line or in force (our own).",
            example: "`X1`",
            answer: "`ngc: fault 207 line 1`",
            place: None,
            mend: "Write `G0` or `G1` before the first motion and after `G80`. Write `H` on the line of `G43`. Take\n\
             out the `K0` of an arc in `G17`, or the `P` of a `G81`.",
        },
        Row {
            number: 208,
            rule: "A word is missing that a code on this line needs: add it (our own).\n\
             `G4` needs `P`, `G10` `L` and `P`, `G43` `H`; `G53`, `G92` and a cycle's code an axis word; `G1`\n\
             and arcs in `G93` need `F`.",
            example: "`G43`",
            answer: "`ngc: fault 208 line 1`",
            place: None,
            mend: "For example `G43 H1`. The first line of a cycle, also after another one, needs `R` and the\n\
             depth; for `G82`, `G86` and `G89` also `P`, for `G83` also `Q`.",
        },
        Row {
            number: 209,
            rule: "The number of a word on this line is out of its range: write another one.\n\
             `F`, `S` and the `P` of `G4`: 0 or more. `T` and `H`: whole, 0 or more. `G10`: `L` is 2, and `P`\n\
             is whole, 1 to 9.",
            example: "`T1.5`",
            answer: "`ngc: fault 209 line 1`",
            place: None,
            mend: "Write `T1` or `T2` for `T1.5`. The words of cycles have faults of their own, 231 to 234.",
        },
        Row {
            number: 210,
            rule: "`G53` works only with `G0` or `G1`: write one of them on this line.\n\
             It may also be in force from a line before.",
            example: "`G53 X1`",
            answer: "`ngc: fault 210 line 1`",
            place: None,
            mend: "Write `G53 G0 X1`. This ends a cycle that is in force.",
        },
    ];
    ROWS
}

// Returns the rows of "Places, tools and feeds".
pub(crate) fn places() -> &'static [Row]
    ensures { map (λ row. row.number) result.now ≡ place_numbers }
{
    const ROWS: &[Row] = &[
        Row {
            number: 101,
            rule: "This length is too great: write a smaller number.\n\
             The limit is 100,000 mm (our own).",
            example: "`G0 X200000`",
            answer: "`ngc: fault 101 line 1`",
            place: None,
            mend: "Look for a missing decimal point, and for `G20` (inches) where millimetres are meant.",
        },
        Row {
            number: 221,
            rule: "This coordinate is too far out: write a smaller number.\n\
             The limit is 1,000 mm either way, also for `R`, bottom and holes of a cycle, and 4,000 mm on a\n\
             machine whose travel ends over 1,000 mm from zero. For origins and axis offsets it is 4,000 mm\n\
             (our own).",
            example: "`G0 X1000.000001`",
            answer: "`ngc: fault 221 line 1`",
            place: None,
            mend: "Look for a missing decimal point, or for `G91` where `G90` is meant: in `G91` the sum counts.\n\
             The travel of the machine isn't tested here: `ngc report` does that.",
        },
        Row {
            number: 222,
            rule: "This tool isn't in the tool table: name the table with `--tools`, or add the tool to it.\n\
             `M6` and `G43 H` need it there; 0 is no tool (our own: a tool that is only selected needn't be\n\
             there).",
            example: "`T1 M6`",
            answer: "`ngc: fault 222 line 1`",
            place: None,
            mend: "Each tool is a table `[[tool]]` of the file: docs/FORMATS.md has its keys.",
        },
        Row {
            number: 251,
            rule: "The program has too many commands: split it, or look for an `L` that is too great.\n\
             The limit is 1,000,000 (our own).",
            example: "whole file: 26 lines `G91 G81 X0.001 Z-0.1 R-0.1 F60 L9999`, then `M2`",
            answer: "`ngc: fault 251 line 26`",
            place: None,
            mend: "A hole of a cycle is three commands or more, and `L` repeats it. Give each part its modes, its\n\
             tool, its feed and its `M2`.",
        },
        Row {
            number: 252,
            rule: "No feed is set yet: write `F` with a feed rate in mm/min on this line or before it.\n\
             A `G1` motion, an arc and a cycle need a feed above 0.",
            example: "`G1 X1`",
            answer: "`ngc: fault 252 line 1`",
            place: None,
            mend: "For example `G1 X1 F100`; in `G20` the rate is in inches per minute. In `G93` `F` must be on the\n\
             line itself.",
        },
    ];
    ROWS
}
