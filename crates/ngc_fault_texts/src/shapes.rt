//! Faults of cycles and arcs.

ghost use Rattle.std.specs.Prelude.{◌≡◌, map};
ghost use Rattle.ngc_fault_texts.specs.Numbers.{cycle_numbers, arc_numbers};

use crate::parts::Row;

// Returns the rows of "Canned cycles".
pub(crate) fn cycles() -> &'static [Row]
    ensures { map (λ row. row.number) result.now ≡ cycle_numbers }
{
    const ROWS: &[Row] = &[
        Row {
            number: 231,
            rule: "`R` is below the bottom of the hole, along the axis across the selected plane: if `G18`\n\
             or `G19` is left in force, write `G17`; otherwise exchange the two numbers, or correct a\n\
             sign. The cycle feeds from `R` down to the bottom.",
            example: "`G81 X1 Z-5 R-10 F60`",
            answer: "`ngc: fault 231 line 1`",
            place: None,
            mend: "For example `G81 X1 Z-10 R-5 F60`.",
        },
        Row {
            number: 231,
            rule: "In `G91` the depth of this hole is above 0: write it below 0, as in `Z-5`.\n\
             There the bottom is counted from `R`.",
            example: "`G91 G81 X1 Z5 R-10 F60`",
            answer: "`ngc: fault 231 line 1`",
            place: None,
            mend: "`Z-5 R-10` feeds from 10 mm below the current point, and 5 mm deep.",
        },
        Row {
            number: 232,
            rule: "The `L` of this cycle isn't a whole number from 1 to 9,999: correct it, or take it out (the\n\
             upper bound is our own).",
            example: "`G81 X1 Z-15 R-10 L0 F60`",
            answer: "`ngc: fault 232 line 1`",
            place: None,
            mend: "Without `L` the hole is made once. For `L0` write the line where the first hole is to be, and\n\
             for more holes write two lines.",
        },
        Row {
            number: 233,
            rule: "The depth of a peck, `Q`, isn't above 0: write it without a sign.",
            example: "`G83 X1 Z-15 R-10 Q0 F60`",
            answer: "`ngc: fault 233 line 1`",
            place: None,
            mend: "For example `Q2` for pecks of 2 mm.",
        },
        Row {
            number: 233,
            rule: "The depth of a peck, `Q`, is too small for this hole: write a greater one.\n\
             A hole has at most 10,000 pecks (our own).",
            example: "`G83 X1 Z-15 R-10 Q0.0004 F60`",
            answer: "`ngc: fault 233 line 1`",
            place: None,
            mend: "The example is 5 mm deep: 10,000 pecks need `Q0.0005`.",
        },
        Row {
            number: 234,
            rule: "The dwell `P` is negative: write the seconds without a sign.\n\
             It is that of `G82`, `G86` or `G89`.",
            example: "`G82 X1 Z-15 R-10 P-1 F60`",
            answer: "`ngc: fault 234 line 1`",
            place: None,
            mend: "For example `P0.5` for half a second.",
        },
        Row {
            number: 235,
            rule: "The spindle is off, and `G86` needs it on: write `M3` or `M4` on this line or before it.\n\
             A speed of 0 will do (our own).",
            example: "`G86 X1 Z-15 R-10 P1 F60`",
            answer: "`ngc: fault 235 line 1`",
            place: None,
            mend: "`M6` turns the spindle off: write `M3` after it.",
        },
        Row {
            number: 236,
            rule: "A cycle doesn't work in `G93`: write `G94`, and the feed rate in mm/min.",
            example: "`G93 G81 X1 Z-15 R-10 F60`",
            answer: "`ngc: fault 236 line 1`",
            place: None,
            mend: "For example `G94 G81 X1 Z-15 R-10 F60`, and `G93` again on a line after the cycles.",
        },
        Row {
            number: 252,
            rule: "No feed is set for this cycle: write `F` with a feed rate in mm/min on this line or before it.\n\
             A cycle needs a feed above 0.",
            example: "`G81 X1 Z-15 R-10`",
            answer: "`ngc: fault 252 line 1`",
            place: None,
            mend: "For example `G81 X1 Z-15 R-10 F60`; in `G20` the rate is in inches per minute.",
        },
    ];
    ROWS
}

// Returns the rows of "Arcs".
pub(crate) fn arcs() -> &'static [Row]
    ensures { map (λ row. row.number) result.now ≡ arc_numbers }
{
    const ROWS: &[Row] = &[
        Row {
            number: 241,
            rule: "This arc has no axis word: write where it ends, also for a full circle.\n\
             It needs `X` or `Y` in `G17`, `Z` or `X` in `G18`, `Y` or `Z` in `G19`.",
            example: "`G2 I5 F60`",
            answer: "`ngc: fault 241 line 1`",
            place: None,
            mend: "For a full circle write an axis at its current position: `G2 X0 I5`.",
        },
        Row {
            number: 241,
            rule: "This arc has a word of the third axis only: write an axis word of its plane too.",
            example: "`G2 Z-1 I5 F60`",
            answer: "`ngc: fault 241 line 1`",
            place: None,
            mend: "For a full turn of a helix write `G2 X0 Z-1 I5`. Or look for a missing `G17`, `G18` or `G19`.",
        },
        Row {
            number: 242,
            rule: "This arc has no centre and no radius: write `I` and `J`, or `R`.\n\
             Each arc needs an offset of its plane or `R`: they aren't kept from line to line.",
            example: "`F60 G2 X10`",
            answer: "`ngc: fault 242 line 1`",
            place: None,
            mend: "The offsets are `I` and `K` in `G18`, and `J` and `K` in `G19`. If a straight line is meant,\n\
             write `G1`.",
        },
        Row {
            number: 243,
            rule: "The start and the end of this arc aren't equally far from its centre: correct its end or its\n\
             offsets.\n\
             The two radii differ by at most 0.002 mm in `G21` and 0.0002 inch in `G20`.",
            example: "`G2 X10.003 I5 F60`",
            answer: "`ngc: fault 243 line 1`",
            place: None,
            mend: "Write more decimals. Offsets are counted from the start of the arc: look for a wrong sign, or a\n\
             line before it that ends elsewhere.",
        },
        Row {
            number: 244,
            rule: "The radius is too small to reach from start to end: write a greater `R`.\n\
             The least is half the distance between them, less 0.002 mm in `G21` and 0.0002 inch in `G20`\n\
             (our own).",
            example: "`G2 X10 R4.997 F60`",
            answer: "`ngc: fault 244 line 1`",
            place: None,
            mend: "The example needs `R5`: its ends are 10 mm apart.",
        },
        Row {
            number: 245,
            rule: "This arc with `R` ends where it starts: write a full circle with `I` and `J`.\n\
             With `R` the two must differ in the plane.",
            example: "`G2 X0 R5 F60`",
            answer: "`ngc: fault 245 line 1`",
            place: None,
            mend: "For example `G2 X0 I5`. If no full circle is meant, correct the end.",
        },
        Row {
            number: 246,
            rule: "The radius of this arc is 0 or too large: correct its offsets.\n\
             Start and end are 1 nm to 2,000 mm from the centre (our own).",
            example: "`G2 X10 I0 F60`",
            answer: "`ngc: fault 246 line 1`",
            place: None,
            mend: "Look for a missing offset, or for a missing decimal point.",
        },
        Row {
            number: 246,
            rule: "The radius of this arc is 0 or too large: write another `R`.\n\
             It is 1 nm to 2,000 mm either way, and the centre isn't at the start or the end (our own).",
            example: "`G2 X10 R0 F60`",
            answer: "`ngc: fault 246 line 1`",
            place: None,
            mend: "For example `G2 X10 R5`. With a negative `R` it is the arc of more than half a turn.",
        },
        Row {
            number: 252,
            rule: "No feed is set for this arc: write `F` with a feed rate in mm/min on this line or before it.\n\
             An arc needs a feed above 0.",
            example: "`G2 X10 I5`",
            answer: "`ngc: fault 252 line 1`",
            place: None,
            mend: "For example `G2 X10 I5 F60`; in `G20` the rate is in inches per minute. In `G93` `F` must be on\n\
             the line itself.",
        },
    ];
    ROWS
}
