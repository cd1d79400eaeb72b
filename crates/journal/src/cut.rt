ghost use Rattle.std.specs.Prelude.{◌≡◌, ◌<◌, ◌≤◌, length};
ghost use Rattle.text.specs.Lines.{lines_in};
ghost use Rattle.journal.specs.Journal.{text_of, behind_text};
ghost use Rattle.journal.specs.Cut.{Cut};

use text::cut::line_end_of;

// The first line, without its byte 10, and what stands behind it.
pub(crate) fn cut_line(journal: &[u8]) -> (&[u8], &[u8])
    requires { 0 < length journal.now }
    ensures { Cut journal.now result.0.now result.1.now }
{
    let Some(end) = line_end_of(journal) else {
        return (journal, &[]);
    };
    (&journal[..end], &journal[end + 1..])
}

// The text that begins here, up to a line that is just a dot, and what stands behind that line.
pub(crate) fn cut_text(journal: &[u8]) -> (&[u8], &[u8])
    ensures text { result.0.now ≡ text_of (lines_in journal.now) }
    ensures behind { lines_in result.1.now ≡ behind_text (lines_in journal.now) }
    ensures shorter { length result.1.now ≤ length journal.now }
{
    let mut rest = journal;
    while !rest.is_empty() {
        let (line, behind) = cut_line(rest);
        if line == b".".as_slice() {
            let end = journal.len() - rest.len();
            return (&journal[..end], behind);
        }
        rest = behind;
    }
    (journal, &[])
}
