// Line feeds.
ghost use Rattle.accepted.specs.Clauses.Held.{FeedAt};

// Where the first line feed stands, if there is one.
pub(crate) fn feed_at(bytes: &[u8]) -> Option<usize>
    ensures { FeedAt bytes.now result }
{
    bytes.iter().position(|b| *b == b'\n')
}
