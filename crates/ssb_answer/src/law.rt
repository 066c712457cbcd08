// Laws of a database and its sessions: what is answered over tables that were loaded once is the reply to the
// files that they were loaded of, and no statement is left out.

ghost use Rattle.ssb_answer.specs.Database.{RepliesOfFiles};
ghost use Rattle.ssb_answer.specs.Session.{OutcomesAreReplies, OutcomesAreShown, SessionsAreWhole};

use ssb_records::Source;

/// A law: a reply over the tables that were loaded of files is the reply to those files.
pub fn replies_of_files()
    ensures { RepliesOfFiles }
{}

/// A law: what comes of a statement over the tables that were loaded of files is the reply of a run of its
/// own over these files.
pub fn outcomes_are_replies()
    ensures { OutcomesAreReplies }
{}

/// A law: in any shape, it is what is shown of those files.
pub fn outcomes_are_shown()
    ensures { OutcomesAreShown }
{}

/// A law: where a session ends with its input, over statements of a source that had given nothing, its
/// statements are those of all bytes that the source gave; where it tells its bytes, of all of them.
pub fn sessions_are_whole<S: Source>()
    ensures { SessionsAreWhole S.Source }
{}
