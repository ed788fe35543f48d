ghost use Rattle.std.specs.Prelude.{◌≡◌, ℕ, ◌≤◌, length, drop, List};
ghost use Rattle.std.specs.Str.{bytes_eq};
ghost use Rattle.ngc_line_reader.specs.Scan.{Gives};
ghost use Rattle.ngc_dialect_reader.specs.Flow as spec;

use crate::fault::{Cause, Refusal};
use crate::item::{items, whole};
use crate::number::{begins, refused, tail};
use crate::part::{Keyword, PartKind};
use crate::steps::{Parts, added, after, after_comments, ended, name_at, starts_with, word_length};
use crate::switches::Switches;
use crate::value::{bracket_at, is, value_at};

fn keyword_of(word: &[u8]) -> Option<Keyword>
    ensures { result ≡ spec.keyword_of word.now }
{
    if is(word, b"SUB") {
        Some(Keyword::Sub)
    } else if is(word, b"ENDSUB") {
        Some(Keyword::EndSub)
    } else if is(word, b"CALL") {
        Some(Keyword::Call)
    } else if is(word, b"RETURN") {
        Some(Keyword::Return)
    } else if is(word, b"IF") {
        Some(Keyword::If)
    } else if is(word, b"ELSEIF") {
        Some(Keyword::ElseIf)
    } else if is(word, b"ELSE") {
        Some(Keyword::Else)
    } else if is(word, b"ENDIF") {
        Some(Keyword::EndIf)
    } else if is(word, b"WHILE") {
        Some(Keyword::While)
    } else if is(word, b"ENDWHILE") {
        Some(Keyword::EndWhile)
    } else if is(word, b"DO") {
        Some(Keyword::Do)
    } else if is(word, b"REPEAT") {
        Some(Keyword::Repeat)
    } else if is(word, b"ENDREPEAT") {
        Some(Keyword::EndRepeat)
    } else if is(word, b"BREAK") {
        Some(Keyword::Break)
    } else if is(word, b"CONTINUE") {
        Some(Keyword::Continue)
    } else {
        None
    }
}

fn fewest(keyword: Keyword) -> u8
    ensures { result ≡ spec.fewest keyword }
{
    match keyword {
        Keyword::If | Keyword::ElseIf | Keyword::While | Keyword::Repeat => 1,
        _ => 0,
    }
}

fn most(keyword: Keyword) -> u8
    ensures { result ≡ spec.most keyword }
{
    match keyword {
        Keyword::If | Keyword::ElseIf | Keyword::While | Keyword::Repeat => 1,
        Keyword::EndSub | Keyword::Return => 1,
        Keyword::Call => 30,
        _ => 0,
    }
}

// Adds expressions in brackets, and returns the rest and how many they are.
#[tactic(auto, using(crate::proofs::FlowSteps::arguments_steps))]
fn arguments_at<'a>(
    dialect: Switches,
    s: &'a [u8],
    parts: &mut Parts,
) -> Result<(&'a [u8], u8), Refusal>
    ensures { Gives (λ x. ((parts.new.items, x.0.now), x.1)) result
        (spec.arguments_at dialect 31 0 parts.old.items s.now) }
{
    let mut rest = s;
    let mut count: u8 = 0;
    while count < 31 {
        let bracket = after_comments(rest);
        if !begins(b'[', bracket) {
            return Ok((rest, count));
        }
        count += 1;
        match bracket_at(whole(dialect), bracket, parts) {
            Ok(afterwards) => rest = afterwards,
            Err(refusal) => return Err(refusal),
        }
    }
    Err(refused(Cause::WrongArguments, rest))
}

// Adds what an O word does, and returns the rest.
#[tactic(auto, unfolding(crate::specs::Flow::action_at))]
fn action_at<'a>(
    dialect: Switches,
    keyword: Option<Keyword>,
    from: &[u8],
    s: &'a [u8],
    parts: &mut Parts,
) -> Result<&'a [u8], Refusal>
    ensures { Gives (λ r. (parts.new.items, r.now)) result
        (spec.action_at dialect keyword from.now parts.old.items s.now) }
{
    let Some(keyword) = keyword else {
        return Err(refused(Cause::UnknownKeyword, from));
    };
    let (rest, count) = arguments_at(dialect, s, parts)?;
    if count < fewest(keyword) || count > most(keyword) {
        return Err(refused(Cause::WrongArguments, from));
    }
    let rest = added(PartKind::Flow(keyword, count), from, parts, rest)?;
    ended(rest)
}

// Adds a label, which is a name or a value, and returns the rest.
#[tactic(auto, unfolding(crate::specs::Flow::label_at))]
fn label_at<'a>(dialect: Switches, s: &'a [u8], parts: &mut Parts) -> Result<&'a [u8], Refusal>
    ensures { Gives (λ r. (parts.new.items, r.now)) result
        (spec.label_at dialect parts.old.items s.now) }
{
    if dialect.names && begins(b'<', tail(s)) {
        let (name, rest) = name_at(after(2, s))?;
        added(PartKind::LabelNamed(name), s, parts, rest)
    } else {
        let rest = value_at(whole(dialect), tail(s), parts)?;
        added(PartKind::Label, s, parts, rest)
    }
}

#[tactic(auto, unfolding(crate::specs::Flow::labelled_at))]
fn labelled_at<'a>(dialect: Switches, s: &'a [u8], parts: &mut Parts) -> Result<&'a [u8], Refusal>
    ensures { Gives (λ r. (parts.new.items, r.now)) result
        (spec.labelled_at dialect parts.old.items s.now) }
{
    let (word, rest) = s.split_at(word_length(s));
    if word.is_empty() {
        return ended(s);
    }
    if !dialect.flow {
        return Err(refused(Cause::NotInDialect, s));
    }
    action_at(dialect, keyword_of(word), s, rest, parts)
}

// Adds an O word, and returns the rest.
#[tactic(auto, unfolding(crate::specs::Flow::o_word_at))]
pub(crate) fn o_word_at<'a>(
    dialect: Switches,
    s: &'a [u8],
    parts: &mut Parts,
) -> Result<&'a [u8], Refusal>
    ensures { Gives (λ r. (parts.new.items, r.now)) result
        (spec.o_word_at dialect parts.old.items s.now) }
{
    if !dialect.labels {
        return Err(refused(Cause::NotInDialect, s));
    }
    let rest = label_at(dialect, s, parts)?;
    labelled_at(dialect, after_comments(rest), parts)
}

// Adds a number and what it is for, and returns the rest.
fn jump_at<'a>(
    dialect: Switches,
    kind: PartKind,
    from: &[u8],
    s: &'a [u8],
    parts: &mut Parts,
) -> Result<&'a [u8], Refusal>
    ensures { Gives (λ r. (parts.new.items, r.now)) result
        (spec.jump_at dialect kind from.now parts.old.items s.now) }
{
    let rest = value_at(whole(dialect), s, parts)?;
    let rest = added(kind, from, parts, rest)?;
    ended(rest)
}

#[tactic(auto, unfolding(crate::specs::Flow::if_at))]
fn if_at<'a>(
    dialect: Switches,
    from: &[u8],
    s: &'a [u8],
    parts: &mut Parts,
) -> Result<&'a [u8], Refusal>
    ensures { Gives (λ r. (parts.new.items, r.now)) result
        (spec.if_at dialect from.now parts.old.items s.now) }
{
    let rest = bracket_at(whole(dialect), s, parts)?;
    let rest = added(PartKind::When, from, parts, rest)?;
    if starts_with(rest, b"GOTO") {
        jump_at(dialect, PartKind::GoTo, rest, after(4, rest), parts)
    } else if starts_with(rest, b"THEN") {
        items(dialect, after(4, rest), parts)
    } else {
        Err(refused(Cause::JumpMissing, rest))
    }
}

#[tactic(auto, unfolding(crate::specs::Flow::while_at))]
fn while_at<'a>(
    dialect: Switches,
    from: &[u8],
    s: &'a [u8],
    parts: &mut Parts,
) -> Result<&'a [u8], Refusal>
    ensures { Gives (λ r. (parts.new.items, r.now)) result
        (spec.while_at dialect from.now parts.old.items s.now) }
{
    let rest = bracket_at(whole(dialect), s, parts)?;
    if starts_with(rest, b"DO") {
        jump_at(dialect, PartKind::Loop, from, after(2, rest), parts)
    } else {
        Err(refused(Cause::JumpMissing, rest))
    }
}

// Adds one of Fanuc's statements, or items, and returns the rest.
#[tactic(auto, unfolding(crate::specs::Flow::macro_at))]
pub(crate) fn macro_at<'a>(
    dialect: Switches,
    s: &'a [u8],
    parts: &mut Parts,
) -> Result<&'a [u8], Refusal>
    ensures { Gives (λ r. (parts.new.items, r.now)) result
        (spec.macro_at dialect parts.old.items s.now) }
{
    if starts_with(s, b"IF[") {
        if_at(dialect, s, after(2, s), parts)
    } else if starts_with(s, b"WHILE[") {
        while_at(dialect, s, after(5, s), parts)
    } else if starts_with(s, b"GOTO") {
        jump_at(dialect, PartKind::GoTo, s, after(4, s), parts)
    } else if starts_with(s, b"END") {
        jump_at(dialect, PartKind::EndLoop, s, after(3, s), parts)
    } else {
        items(dialect, s, parts)
    }
}
