//! What is true of all journals. These functions do nothing: what they ensure holds wherever they are called.
ghost use Rattle.std.specs.Prelude.{◌≡◌, ◌≤◌, ◌++◌, ℕ, List, codes, length};
ghost use Rattle.std.specs.List.{All};
ghost use Rattle.market_types.specs.declared.reply.Entry.{Entry};
ghost use Rattle.market_types.specs.State.{State};
ghost use Rattle.market_types.specs.History.{IsLegal};
ghost use Rattle.edit_history.specs.Chronicled.{IsCallOf, IsOpening};
ghost use Rattle.edit_history.specs.Parts.{AreInARow};
ghost use Rattle.edit_history.specs.declared.part.Part.{Part};
ghost use Rattle.journal_replay.specs.Journal.{header_for, header_line, journal_in, part_lines};
ghost use Rattle.journal_replay.specs.declared.header.Extent.{Extent};
ghost use Rattle.journal_replay.specs.declared.header.Extent.TheVariants.{Limited};
ghost use Rattle.journal_replay.specs.Legality.{IsLegalJournal};
ghost use Rattle.journal_replay.specs.Verdicts.{most_entries, verdict};
ghost use Rattle.journal_replay.specs.Written.{IsShort};
ghost use Rattle.journal_replay.specs.declared.verdict.Verdict.TheVariants.{Legal};

use edit_history::parts_in_a_row_are_the_history;
use market_texts::texts_spell_commands;

/// A text is found legal exactly where it reads as a header and a legal history, of at most 1,048,576 entries where the header
/// limits them; so many are found.
pub fn legal_journals_tell_legal_histories()
    ensures found { (text : List ℕ) (entries : ℕ) → verdict text ≡ Legal entries → IsLegalJournal text entries }
    ensures legal { (text : List ℕ) (entries : ℕ) → IsLegalJournal text entries → verdict text ≡ Legal entries }
{}

/// The journal of a legal history is found legal, with as many entries as the history has: whatever their number where it is
/// endless, and with at most 1,048,576 where it is limited.
pub fn journals_of_legal_histories_are_legal()
    ensures { (extent : Extent) (start : State) (history : List Entry) → IsOpening start → IsLegal start history → All (IsCallOf (length start.seats)) history
        → (extent ≡ Limited → length history ≤ most_entries) → verdict (journal_in extent start history) ≡ Legal (length history) }
{
    texts_spell_commands();
    legal_journals_tell_legal_histories();
    written_lines_are_short();
}

/// No line that is written of a legal history has more bytes than a line of a journal may have. The longest tell the lists of
/// 1,024 arenas.
pub fn written_lines_are_short()
    ensures { (start : State) (history : List Entry) → IsOpening start → IsLegal start history → All (IsShort start.levels) history }
{}

/// The header of a journal, limited or endless, and behind it the lines of parts that are the history one after the other, are
/// the journal of the history.
pub fn header_and_parts_are_the_journal()
    ensures { (extent : Extent) (start : State) (history : List Entry) (parts : List Part) → AreInARow 0 parts history
        → (header_line (header_for extent start) ++ codes "\n") ++ part_lines start.levels parts ≡ journal_in extent start history }
{
    parts_in_a_row_are_the_history();
}
