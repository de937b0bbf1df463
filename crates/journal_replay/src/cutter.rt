//! Lines cut member by member. At each place what is written here is tried first, and only where it is missing white space is passed
//! over: so a line that is spelled as ours is told by its places, and one that another tool wrote as soon as the two differ. What is
//! cut is proved to be what the lexer of JSON finds there.
ghost use Rattle.std.specs.Prelude.{◌≡◌, ◌<◌, ◌^◌, ◌∷◌, [], true, length, Some, IfSome, decimal};
ghost use Rattle.std.specs.Bool.{OnTrue};
ghost use Rattle.json.specs.Lex.{class, comma, operator, operator_lexeme, space, token};
ghost use Rattle.json.specs.Token.{begin_object, number, string};
ghost use Rattle.json.specs.Word.{ends_word};
ghost use Rattle.serde_json.specs.Data.{object};
ghost use Rattle.journal_replay.specs.Cuts.{IsCut};
ghost use Rattle.journal_replay.specs.Members.{CutsMember, IsCounted, member_lexemes, members_of};
ghost use Rattle.journal_replay.specs.Reading.{json_of};

use crate::fields::{Fields, Member};
use crate::texts::{Texts, behind, cut_quoted};
use market_texts::cut_digits;

/// The byte is white space. No line has an LF.
#[inline(always)]
fn is_space(byte: u8) -> bool
    ensures white { OnTrue result (class byte ≡ space) }
    ensures ascii { OnTrue result (byte < 128) }
{
    matches!(byte, b' ' | b'\t' | b'\r')
}

/// What follows the byte of white space with which a text begins.
#[inline(always)]
fn after_space(text: &[u8]) -> Option<&[u8]>
    ensures cut { IfSome result (λ rest. IsCut text.now rest.now []) }
    ensures shorter { IfSome result (λ rest. length rest.now < length text.now) }
{
    let (first, rest) = text.split_first()?;
    if is_space(*first) { Some(rest) } else { None }
}

/// What follows the white space that a text begins with, of which eight spaces are passed at once.
// Apart, since where a tool writes a space it mostly writes one.
#[inline(never)]
fn skip_spaces(text: &[u8]) -> &[u8]
    ensures { IsCut text.now result.now [] }
{
    let mut rest = text;
    while let Some(more) = behind(rest, b"        ") {
        rest = more;
    }
    while let Some(more) = after_space(rest) {
        rest = more;
    }
    rest
}

/// What follows the white space that a text begins with.
#[inline(always)]
fn skip_space(text: &[u8]) -> &[u8]
    ensures { IsCut text.now result.now [] }
{
    let Some(rest) = after_space(text) else {
        return text;
    };
    if after_space(rest).is_none() {
        return rest;
    }
    skip_spaces(rest)
}

/// What follows this byte, with which the text begins behind white space.
#[inline(always)]
fn after_operator(text: &[u8], byte: u8) -> Option<&[u8]>
    requires { class byte ≡ operator }
    ensures cut { IfSome result (λ rest. IsCut text.now rest.now (operator_lexeme byte ∷ [])) }
    ensures shorter { IfSome result (λ rest. length rest.now < length text.now) }
{
    let (first, rest) = skip_space(text).split_first()?;
    if *first == byte { Some(rest) } else { None }
}

/// The text in quotes with which the text begins behind white space, and what follows it. Escapes are undone in the room, if any.
#[inline(always)]
fn cut_text<'a>(text: &'a [u8], room: Option<&'a mut Vec<u8>>) -> Option<(&'a [u8], &'a [u8])>
    ensures { IfSome result (λ cut. IsCut text.entry.now cut.1.now (token (string cut.0.now) ∷ [])) }
{
    let inside = behind(skip_space(text), b"\"")?;
    let (found, rest) = cut_quoted(inside, room)?;
    Some((found, rest))
}

/// Whether a number may end before this text: at white space, a comma or a brace.
fn ends_number(text: &[u8]) -> bool
    ensures { OnTrue result (ends_word text.now ≡ true) }
{
    match text.first() {
        Some(first) => matches!(*first, b' ' | b'\t' | b'\r' | b',' | b'}'),
        None => false,
    }
}

/// The number with which the text begins behind white space, and what follows it.
// In its callers: what it answers is more than registers hold, so that a call would put it into memory.
#[inline(always)]
fn cut_whole(text: &[u8]) -> Option<(u32, &[u8])>
    ensures cut { IfSome result (λ cut. IsCut text.now cut.1.now (token (number (decimal cut.0)) ∷ [])) }
    ensures counted { IfSome result (λ cut. cut.0 < 2 ^ 64) }
{
    let (number, rest) = cut_digits(skip_space(text), u64::from(u32::MAX))?;
    if !ends_number(rest) {
        return None;
    }
    Some((number as u32, rest))
}

/// The member with which the text begins, and what follows it.
#[inline(always)]
fn cut_member<'a>(text: &'a [u8], room: Option<&'a mut Vec<u8>>) -> Option<(Member<'a>, &'a [u8])>
    ensures cut { IfSome result (λ cut. IsCut text.entry.now cut.1.now (member_lexemes cut.0)) }
    ensures counted { IfSome result (λ cut. IsCounted cut.0) }
{
    let text = skip_space(text);
    if let Some(rest) = behind(text, b"\"cmd\"") {
        let (cmd, rest) = cut_text(after_operator(rest, b':')?, room)?;
        return Some((Member::Cmd(cmd), rest));
    }
    if let Some(rest) = behind(text, b"\"reply\"") {
        let (reply, rest) = cut_text(after_operator(rest, b':')?, room)?;
        return Some((Member::Reply(reply), rest));
    }
    let rest = behind(text, b"\"seat\"")?;
    let (seat, rest) = cut_whole(after_operator(rest, b':')?)?;
    Some((Member::Seat(seat), rest))
}

/// Takes the member with which a text begins: white space may stand before its key, its colon and its value. It gives what follows.
// Apart, since a member that is spelled as ours would else make room for what is cut here.
#[inline(never)]
fn take_member<'a>(
    text: &'a [u8],
    room: Option<&'a mut Vec<u8>>,
    fields: &mut Fields<'a>,
) -> Option<&'a [u8]>
    ensures { IfSome result (λ rest. CutsMember [] text.entry.now rest.now (members_of fields.old) (members_of fields.new)) }
{
    let (member, rest) = cut_member(text, room)?;
    fields.put(member);
    Some(rest)
}

/// The same of the first member, behind the brace that begins the object. Ours is a command.
#[inline(always)]
fn take_first<'a>(
    line: &'a [u8],
    room: &'a mut Vec<u8>,
    fields: &mut Fields<'a>,
) -> Option<&'a [u8]>
    ensures { IfSome result (λ rest. CutsMember (token begin_object ∷ []) line.entry.now rest.now (members_of fields.old) (members_of fields.new)) }
{
    let Some(rest) = behind(line, b"{\"cmd\":\"") else {
        return take_member(after_operator(line, b'{')?, Some(room), fields);
    };
    let (cmd, rest) = cut_quoted(rest, Some(room))?;
    fields.put(Member::Cmd(cmd));
    Some(rest)
}

/// The same of the second member, behind a comma. Ours is a reply, whose label is compared by eight bytes and two.
#[inline(always)]
fn take_second<'a>(
    text: &'a [u8],
    room: &'a mut Vec<u8>,
    fields: &mut Fields<'a>,
) -> Option<&'a [u8]>
    ensures { IfSome result (λ rest. CutsMember (comma ∷ []) text.entry.now rest.now (members_of fields.old) (members_of fields.new)) }
{
    let Some(rest) = behind(text, b",\"reply\"") else {
        return take_member(after_operator(text, b',')?, Some(room), fields);
    };
    let (reply, rest) = cut_text(after_operator(rest, b':')?, Some(room))?;
    fields.put(Member::Reply(reply));
    Some(rest)
}

/// The same of the third member, behind a comma. Ours is a seat.
#[inline(always)]
fn take_third<'a>(
    text: &'a [u8],
    room: &'a mut Vec<u8>,
    fields: &mut Fields<'a>,
) -> Option<&'a [u8]>
    ensures { IfSome result (λ rest. CutsMember (comma ∷ []) text.entry.now rest.now (members_of fields.old) (members_of fields.new)) }
{
    let Some(rest) = behind(text, b",\"seat\":") else {
        return take_member(after_operator(text, b',')?, Some(room), fields);
    };
    let (seat, rest) = cut_whole(rest)?;
    fields.put(Member::Seat(seat));
    Some(rest)
}

/// Takes the members of a line that is an object of an entry's members, three or more, of whose texts those of the first three may have
/// escapes. None of a line that is spelled otherwise, and of one that is no such object.
// Apart, since what is cut and what is replayed would else contend for registers.
#[inline(never)]
pub(crate) fn cut_line<'a>(
    line: &'a [u8],
    texts: &'a mut Texts,
    fields: &mut Fields<'a>,
) -> Option<()>
    ensures { IfSome result (λ _. json_of line.entry.now ≡ Some (object (members_of fields.new))) }
{
    let Texts {
        first,
        second,
        third,
    } = texts;
    *fields = Fields::none();
    let rest = take_first(line, first, fields)?;
    let rest = take_second(rest, second, fields)?;
    let mut rest = take_third(rest, third, fields)?;
    // A key comes twice.
    while let Some(next) = after_operator(rest, b',') {
        rest = take_member(next, None, fields)?;
    }
    let rest = skip_space(after_operator(rest, b'}')?);
    if !rest.is_empty() {
        return None;
    }
    Some(())
}
