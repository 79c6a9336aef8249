// What a byte of an index text may be.
ghost use Rattle.std.specs.Prelude.{◌≡◌};
ghost use Rattle.theory.specs.Index.{separator, line_end};
ghost use Rattle.index_read.specs.Bytes.{ends_run};

// Whether a byte is a separator. It is one test of a bit, which `matches!` made two tests.
#[tactic(auto, unfolding(theory::specs::Index::separator))]
pub(crate) fn is_separator(byte: u8) -> bool
    ensures { result ≡ separator byte }
{
    byte == b' ' || byte == b'\t' || byte == b'\r' || byte == b'\n' || byte == b','
}

// Whether a comment ends before a byte.
#[tactic(auto, unfolding(theory::specs::Index::line_end))]
pub(crate) fn ends_comment(byte: u8) -> bool
    ensures { result ≡ line_end byte }
{
    matches!(byte, b'\r' | b'\n')
}

// Whether a run ends before a byte: a separator, or the # of a comment.
#[tactic(auto, unfolding(theory::specs::Index::comment_start, crate::specs::Bytes::ends_run))]
pub(crate) fn ends_run(byte: u8) -> bool
    ensures { result ≡ ends_run byte }
{
    is_separator(byte) || byte == b'#'
}
