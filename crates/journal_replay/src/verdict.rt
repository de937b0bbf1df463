//! What is found of a journal.
ghost use Rattle.std.specs.Prelude.{◌≡◌, string_bytes};

use std::fmt;
use std::marker::Model;

/// The text of the reply that was due. Contracts see it as its bytes.
#[derive(Debug, Drop)]
pub struct DueReply {
    text: String,
}

impl Model for DueReply {
    ghost use Rattle.std.specs.Prelude.{ℕ, List, string_bytes};

    ghost Value = { List ℕ };

    ghost view = { λ d. string_bytes d.text };
}

impl DueReply {
    /// The reply of this text.
    pub(crate) fn new(text: String) -> Self
        ensures { result ≡ string_bytes text }
    {
        DueReply { text }
    }

    /// The reply's text.
    pub fn as_str(&self) -> &str
        ensures { result.now ≡ self.now }
    {
        self.text.as_str()
    }
}

/// What is found of a journal. Its text is what the program tells. The first faulty line decides; the header is line 1.
#[derive(Debug, Drop)]
pub enum Verdict {
    /// The text is a header and a legal history of so many entries.
    Legal(u64),
    /// J1: the first line is missing, has no LF, has more than 65,536 bytes, is not JSON, or is no header.
    BadHeader,
    /// J2: this line has no LF, has more than 65,536 bytes, or is not JSON. An empty line is not.
    BadJson(u64),
    /// J3: this line is JSON and no entry, or its command does not read, or the market has no such seat, or 1,048,576
    /// entries are before it and the journal is of version 1 or 2.
    BadRecord(u64),
    /// J4: this line's reply is not the one that is due after the entries before it.
    WrongReply(u64, DueReply),
}

impl fmt::Display for Verdict {
    ghost use Rattle.std.specs.Prelude.{Some};
    ghost use Rattle.journal_replay.specs.VerdictTexts.{verdict_text};

    ghost output = { λ v. Some (verdict_text v) };

    fn fmt<W: fmt::Write>(&self, f: &mut fmt::Formatter<W>) -> fmt::Result {
        match self {
            Verdict::Legal(entries) => write!(f, "legal {entries}"),
            Verdict::BadHeader => f.write_str("J1 bad header"),
            Verdict::BadJson(line) => write!(f, "J2 bad json line {line}"),
            Verdict::BadRecord(line) => write!(f, "J3 bad record line {line}"),
            Verdict::WrongReply(line, due) => {
                let due = due.as_str();
                write!(f, "J4 wrong reply line {line} due {due}")
            }
        }
    }
}
