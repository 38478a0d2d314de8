//! What the program writes of itself.
ghost use Rattle.std.specs.Prelude.{◌≡◌, ◌≢◌, MatchOption};
ghost use Rattle.iri_text.specs.Sink.{KeepsRoom, sink_state};
ghost use Rattle.iri_cli.specs.help.Notices.{notice_text, PutsText};
ghost use Rattle.iri_cli.specs.run.Words.{notice_word};
ghost use Rattle.iri_cli.specs.declared.help.Notice.{Notice};

use crate::run::end::{End, finish, status};
use iri_text::{Failed, Sink};

/// A text that the program writes of itself.
#[derive(Clone, Copy)]
pub enum Notice {
    /// The commands, their answers and the statuses.
    Help,
    /// The program's name and version.
    Version,
}

/// The text of `--help`. Its lines after two spaces and the program's name tell the commands.
pub const HELP: &str = "\
irikit: canonical texts of URI and IRI references (RFC 3986, RFC 3987)
  irikit canon GRAMMAR [scheme]          answers each reference line by its canonical text against a base
  irikit canon GRAMMAR to uri [scheme]   the same as canon, each text mapped to a URI (RFC 3987 3.1)
  irikit pairs GRAMMAR [scheme]          answers each line, a page, a tab and a link, by the link's canonical text against its page
  irikit pairs GRAMMAR to uri [scheme]   the same as pairs, each text mapped to a URI
  irikit parts GRAMMAR [scheme]          answers each reference line by its canonical text and the text's components, as JSON
  irikit expand GRAMMAR [scheme]         answers each URI template by the canonical text of its expansion (RFC 6570)
  irikit register GRAMMAR [scheme]       keeps each link once, with the numbers of its lines, and writes them at the end
  irikit links GRAMMAR [lax] [scheme]    answers the value of each Link header field by its links in one form (RFC 8288)
  irikit docs GRAMMAR [scheme]           answers each line of JSON, a template and its variables, by the canonical text as expand does
  irikit robots GRAMMAR TOKEN [scheme]   tells for each link whether a robots file allows the crawler TOKEN to fetch it (RFC 9309)
  irikit gen GRAMMAR N                   makes N references (from 1 to 100000) and tells of their canonical texts; reads nothing
  irikit --help                          writes this text
  irikit --version                       writes the version
GRAMMAR is uri or iri. With scheme canonical texts are by the rules of five schemes too: default ports go, empty paths become /
  (RFC 3986 6.2.3). The first line of the input is the base, but for pairs; each line after it has one answer line at most.
Lines of expand: 's NAME VALUE' sets a string, 'l NAME ITEM' adds to a list, 'a NAME KEY VALUE' adds a pair,
  'u NAME' unsets, and 't TEMPLATE' is answered; of register: 'a REF' adds, 'd REF' removes, 'f REF' finds a link;
  of robots: 'r LINE' feeds a line of the file, 'u REF' asks for a link
Answers of canon, pairs, expand and docs: 'ok ' and the canonical text; of links: 'ok ' and the links with canonical targets;
  of register: 'new K' or 'old K', 'gone N', 'at K' or 'none', with the place K of an entry or its count N of lines;
  of robots: 'allow ', 'disallow ' or 'other ' and the canonical text; of parts: an object that has text,
  or bad and why; otherwise 'bad ' and why, and where expand or docs
  refuses a template, 'template ' and its fault; where the base is refused, the one line 'base ' and its first fault,
  and so for each page of pairs
Statuses: 0 every answer is good, 1 some answer is bad, 2 the words are no command, 3 the base is refused,
  4 reading failed, 5 writing failed, 6 memory was refused, 7 a line is too long, 8 the input is too long
";

/// The text of `--version`.
pub const VERSION: &str = "irikit 0.2.0\n";

/// The text of a notice.
pub fn text_of(notice: Notice) -> &'static str
    ensures { result.now ≡ notice_text notice }
{
    match notice {
        Notice::Help => HELP,
        Notice::Version => VERSION,
    }
}

/// The notice that is asked for by this word; none exactly where it is no notice's word.
pub fn notice_of(word: &str) -> Option<Notice>
    ensures { MatchOption result ((notice : Notice) → word.now ≢ notice_word notice)
        (λ notice. word.now ≡ notice_word notice) }
{
    match word {
        "--help" => Some(Notice::Help),
        "--version" => Some(Notice::Version),
        _ => None,
    }
}

/// Writes a text, flushes the sink, and gives the program's status.
pub(crate) fn put_text<O: Sink>(text: &str, sink: &mut O) -> u8
    ensures puts { let state = sink_state O.written O.faults O.room_left in
        PutsText text.now (state sink.old) (state sink.new) result }
    ensures room { KeepsRoom (O.room_left sink.old) (O.room_left sink.new) text.now (result ≢ 5) }
{
    match sink.put_all(text.as_bytes()) {
        Ok(()) => finish(sink, End::Done),
        Err(Failed) => status(End::SinkFailed),
    }
}

/// Writes a notice, flushes the sink, and gives the program's status.
pub(crate) fn tell<O: Sink>(notice: Notice, sink: &mut O) -> u8
    ensures puts { let state = sink_state O.written O.faults O.room_left in
        PutsText (notice_text notice) (state sink.old) (state sink.new) result }
    ensures room { KeepsRoom (O.room_left sink.old) (O.room_left sink.new) (notice_text notice)
        (result ≢ 5) }
{
    put_text(text_of(notice), sink)
}
