// Sources whose bytes are counted.

ghost use Rattle.std.specs.Prelude.{◌≡◌, [], IfOk, vec_len};
ghost use Rattle.std.specs.List.{All};

use ssb_records::{Source, SourceFault};
use std::alloc::{AllocError, Global};
use std::sync::atomic::{AtomicU64, Ordering};

/// A source that adds each byte which it gives to a count that others read meanwhile. The count is no part of
/// what it is: no clause speaks of it.
pub struct Counted<'a, S> {
    source: S,
    count: &'a AtomicU64,
}

// Written out, so that the crates above need no proof of how its parts are let go.
impl<'a, S: Drop> Drop for Counted<'a, S> {
    fn drop(self) {
        let Counted { source, count: _ } = self;
        drop(source);
    }
}

impl<'a, S: Source> Source for Counted<'a, S> {
    ghost given = { λ c. S.given c.source };

    ghost failures = { λ c. S.failures c.source };

    ghost ends = { λ c. S.ends c.source };

    ghost whole = { λ c. S.whole c.source };

    fn read(&mut self, room: &mut [u8]) -> Result<usize, SourceFault> {
        let read = self.source.read(room);
        if let Ok(count) = read {
            self.count.fetch_add(count as u64, Ordering::SeqCst);
        }
        read
    }

    ghost begins = { λ c. S.begins c.source };

    ghost settled = { λ c. S.settled c.source };
}

// These sources, counted.
fn counted_each<'a, S: Source + Drop>(
    alloc: Global,
    sources: Vec<S>,
    count: &'a AtomicU64,
) -> Result<Vec<Counted<'a, S>>, AllocError>
    requires { All (λ s. S.given s ≡ []) sources.items }
    ensures { IfOk result (λ counted. All (λ c. S.given c.source ≡ []) counted.items) }
{
    let mut counted = Vec::new(alloc);
    for source in sources {
        counted.push(Counted { source, count })?;
    }
    Ok(counted)
}

/// The sources of each of these lists, which gave nothing so far, each counted by the one count.
///
/// # Errors
///
/// [`AllocError`] where memory for a list was refused; the sources are dropped.
pub fn counted_all<'a, S: Source + Drop>(
    alloc: Global,
    lists: Vec<Vec<S>>,
    count: &'a AtomicU64,
) -> Result<Vec<Vec<Counted<'a, S>>>, AllocError>
    requires { All (λ sources. All (λ s. S.given s ≡ []) sources.items) lists.items }
    ensures count { IfOk result (λ counted. vec_len counted ≡ vec_len lists) }
    ensures unread { IfOk result (λ counted. All (λ sources. All (λ c. S.given c.source ≡ []) sources.items) counted.items) }
{
    let mut counted = Vec::new(alloc);
    for sources in lists {
        let each = counted_each(alloc, sources, count)?;
        counted.push(each)?;
    }
    Ok(counted)
}
