//! Laws of reading: a value is read exactly from what spells it.
ghost use Rattle.std.specs.Prelude.{◌≡◌, ◌<◌, Contains, List, Some, ℕ};
ghost use Rattle.market_types.specs.Commands.{Fits};
ghost use Rattle.market_texts.specs.Reading.{line_reading, line_spellings, reading, spellings};
ghost use Rattle.market_texts.specs.Texts.{cmd_text};

use market_types::Cmd;

/// A text reads as a command exactly where it is one of its spellings; so a canonical text reads
/// back, and no text spells two commands.
pub fn texts_spell_commands()
    ensures spelled_is_read { (levels : ℕ) (cmd : Cmd) (text : List ℕ) →
        Fits cmd → Contains (spellings levels cmd) text → reading levels text ≡ Some cmd }
    ensures read_is_spelled { (levels : ℕ) (cmd : Cmd) (text : List ℕ) →
        reading levels text ≡ Some cmd → Fits cmd × Contains (spellings levels cmd) text }
    ensures reads_back { (levels : ℕ) (cmd : Cmd) →
        Fits cmd → reading levels (cmd_text levels cmd) ≡ Some cmd }
    ensures one_command { (levels : ℕ) (a b : Cmd) (text : List ℕ) → Fits a → Fits b →
        Contains (spellings levels a) text → Contains (spellings levels b) text → a ≡ b }
{}

/// A line reads as a seat and a command exactly where it is the seat, below the number of seats, one space, and a
/// spelling of the command.
pub fn lines_spell_calls()
    ensures spelled_is_read { (seats levels seat : ℕ) (cmd : Cmd) (line : List ℕ) →
        seats < 256 → seat < seats → Fits cmd →
        Contains (line_spellings levels seat cmd) line → line_reading seats levels line ≡ Some (seat, cmd) }
    ensures read_is_spelled { (seats levels seat : ℕ) (cmd : Cmd) (line : List ℕ) →
        line_reading seats levels line ≡ Some (seat, cmd) →
        (seat < seats) × Fits cmd × Contains (line_spellings levels seat cmd) line }
{}
