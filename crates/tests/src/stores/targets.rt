//! Which filing a request or an entry of a test replaces.

ghost use Rattle.http_messages.specs.Posting.{IsTarget};

/// Filing 1, or none.
pub fn first_if(replaces: bool) -> Option<u64>
    ensures { IsTarget result }
{
    if replaces { Some(1) } else { None }
}
